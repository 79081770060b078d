//! Modules of new objects.

ghost use Rattle.std.specs.Prelude.{◌≡◌, ◌≤◌, ◌^◌, map, not, false, Contains, IfOk, IfSome, OnOk};
ghost use Rattle.ld_base.specs.declared.linking.Loaded.{Loaded as loaded};
ghost use Rattle.history_state.specs.Opening.{unplaced};
ghost use Rattle.history_state.specs.Storage.{HaveModules, IsPlaceOf, statics_with, statics_with_one, with_modules, with_place};
ghost use Rattle.link_open_plan.specs.ObjectPlaces.Placing.{HasFewBytes, statics_of, with_module_at};

use ld_base::{Loaded, Serial, TlsPlace, TlsSeg};
use std::alloc::AllocError;
use tls_blocks::TlsModules;

/// The static blocks end before this distance behind tp.
const MOST: u64 = 1 << 62;

/// Gives each object with thread-local storage its module: a late one, or one with a static block.
///
/// # Errors
///
/// Want of memory.
pub(crate) fn give_modules(
    modules: &mut TlsModules,
    late: bool,
    added: &mut [Loaded],
) -> Result<(), AllocError>
    requires { (o : loaded) → Contains added.old o → HasFewBytes o }
    ensures same { map unplaced added.new ≡ map unplaced added.old }
    ensures storage { OnOk result (HaveModules (not late) modules.old.modules (statics_of modules.old) added.new) }
    ensures modules { OnOk result (modules.new.modules ≡ with_modules added.new modules.old.modules) }
    ensures statics { OnOk result (late ≡ false → statics_of modules.new ≡ statics_with added.new (statics_of modules.old)) }
{
    for object in added.iter_mut() {
        give_module(modules, late, object)?;
    }
    Ok(())
}

/// Gives an object its module, where it has thread-local storage.
fn give_module(modules: &mut TlsModules, late: bool, object: &mut Loaded) -> Result<(), AllocError>
    requires { HasFewBytes object.old }
    ensures same { unplaced object.new ≡ unplaced object.old }
    ensures place { OnOk result (IsPlaceOf (not late) modules.old.modules (statics_of modules.old)
        object.new.serial object.new.object.tls object.new.«module») }
    ensures modules { OnOk result (modules.new.modules ≡ with_place object.new modules.old.modules) }
    ensures statics { OnOk result (late ≡ false
        → statics_of modules.new ≡ statics_with_one (statics_of modules.old) object.new.serial object.new.object.tls object.new.«module») }
{
    object.module = module_for(modules, late, object.serial, object.object.tls)?;
    Ok(())
}

/// The module of an object with this segment of thread-local storage.
fn module_for(
    modules: &mut TlsModules,
    late: bool,
    serial: Serial,
    segment: Option<TlsSeg>,
) -> Result<Option<TlsPlace>, AllocError>
    requires { IfSome segment (λ seg. (seg.align ≤ 2 ^ 20) × (seg.memsz ≤ 2 ^ 20)) }
    ensures place { IfOk result (IsPlaceOf (not late) modules.old.modules (statics_of modules.old) serial segment) }
    ensures modules { IfOk result (λ place. modules.new.modules ≡ with_module_at serial place modules.old.modules) }
    ensures statics { IfOk result (λ place. late ≡ false → statics_of modules.new ≡ statics_with_one (statics_of modules.old) serial segment place) }
{
    let Some(segment) = segment else {
        return Ok(None);
    };
    if modules.static_size() > MOST || modules.generation() == u64::MAX {
        return Err(AllocError);
    }
    let place = modules.add(serial, segment, late)?;
    Ok(Some(place))
}
