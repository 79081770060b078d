//! Modules that go.

ghost use Rattle.std.specs.Prelude.{◌≡◌, ◌+◌, ◌^◌, ◌<◌, filter, find, length, not};
ghost use Rattle.std.specs.Option.{option_map};
ghost use Rattle.tls_blocks.specs.Numbers.{AreNumbered};
ghost use Rattle.close_mark.specs.UnmapSteps.Touched.{is_of_set};

use history_event::Module;
use history_graph::SerialSet;
use ld_base::Serial;
use tls_blocks::TlsModules;

/// Removes the modules of the objects of a set.
pub fn remove_modules(modules: &mut TlsModules, set: &[Serial])
    requires numbered { AreNumbered modules.old.modules }
    requires generation { modules.old.generation + length modules.old.modules < 2 ^ 64 }
    ensures modules { modules.new.modules ≡ filter (λ m. not (is_of_set set.now m)) modules.old.modules }
    ensures generation { modules.new.generation ≡ modules.old.generation + length (filter (is_of_set set.now) modules.old.modules) }
    ensures size { modules.new.size ≡ modules.old.size }
    ensures tp { modules.new.tp ≡ modules.old.tp }
{
    remove_those(modules, &SerialSet::new(set));
}

/// The same of a set that is searched.
fn remove_those(modules: &mut TlsModules, set: &SerialSet)
    requires numbered { AreNumbered modules.old.modules }
    requires generation { modules.old.generation + length modules.old.modules < 2 ^ 64 }
    ensures modules { modules.new.modules ≡ filter (λ m. not (is_of_set set.now m)) modules.old.modules }
    ensures generation { modules.new.generation ≡ modules.old.generation + length (filter (is_of_set set.now) modules.old.modules) }
    ensures size { modules.new.size ≡ modules.old.size }
    ensures tp { modules.new.tp ≡ modules.old.tp }
{
    while let Some(number) = number_of(modules.as_slice(), set) {
        modules.remove(number);
    }
}

/// The number of the first module of an object of a set.
fn number_of(modules: &[Module], set: &SerialSet) -> Option<u64>
    ensures { result ≡ option_map (λ m. m.number) (find (is_of_set set.now) modules.now) }
{
    for module in modules {
        if set.has(module.serial) {
            return Some(module.number);
        }
    }
    None
}
