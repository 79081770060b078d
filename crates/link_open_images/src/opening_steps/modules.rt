//! Modules of thread-local storage.

ghost use Rattle.std.specs.Prelude.{◌≡◌, ◌+◌, ◌∷◌, [], filter, length, Contains, Some, IfOk, OnOk};
ghost use Rattle.ld_base.specs.declared.linking.Loaded.{Loaded as loaded};
ghost use Rattle.ld_base.specs.declared.object.TlsSeg.{TlsSeg as segment};
ghost use Rattle.history_state.specs.Accepted.{IsStorage};
ghost use Rattle.history_state.specs.Step.{has_module};
ghost use Rattle.history_state.specs.Storage.{HaveModules, IsPlaceOf, with_modules, with_place};
ghost use Rattle.link_open_images.specs.OpeningSteps.Steps.{statics_after, statics_of};

use ld_base::Loaded;
use std::alloc::{AllocError, Global};
use tls_blocks::TlsModules;

/// Static blocks end before this, and fewer changes of modules are counted.
const LIMIT: u64 = 1 << 62;

/// The modules with those of new objects, in memory of their own. Startup's have a place in each static
/// area; later ones are late.
///
/// # Errors
///
/// Want of memory.
pub fn modules_with(
    alloc: Global,
    modules: &TlsModules,
    startup: bool,
    added: &[Loaded],
) -> Result<TlsModules, AllocError>
    requires have { HaveModules startup modules.now.modules (statics_of modules.now) added.now }
    requires storage { (o : loaded) (seg : segment) → Contains added.now o → o.object.tls ≡ Some seg → IsStorage o.object seg }
    ensures modules { IfOk result (λ m. m.modules ≡ with_modules added.now modules.now.modules) }
    ensures statics { IfOk result (λ m. statics_of m ≡ statics_after startup added.now (statics_of modules.now)) }
    ensures generation { IfOk result (λ m. m.generation ≡ modules.now.generation + length (filter has_module added.now)) }
{
    let mut all = modules.copy(alloc)?;
    for object in added {
        add_module(&mut all, startup, object)?;
    }
    Ok(all)
}

/// Adds the module of an object, if it has one.
fn add_module(modules: &mut TlsModules, startup: bool, object: &Loaded) -> Result<(), AllocError>
    requires have { IsPlaceOf startup modules.old.modules (statics_of modules.old) object.now.serial object.now.object.tls object.now.module }
    requires storage { (seg : segment) → object.now.object.tls ≡ Some seg → IsStorage object.now.object seg }
    ensures modules { OnOk result (modules.new.modules ≡ with_place object.now modules.old.modules) }
    ensures statics { OnOk result (statics_of modules.new ≡ statics_after startup (object.now ∷ []) (statics_of modules.old)) }
    ensures generation { OnOk result (modules.new.generation ≡ modules.old.generation + length (filter has_module (object.now ∷ []))) }
{
    let Some(segment) = object.object.tls else {
        return Ok(());
    };
    if modules.static_size() > LIMIT || modules.generation() >= LIMIT {
        return Err(AllocError);
    }
    modules.add(object.serial, segment, !startup)?;
    Ok(())
}
