//! Where modules have their thread-local storage.

ghost use Rattle.std.specs.Prelude.{◌≡◌, map, IfOk};
ghost use Rattle.history_state.specs.Bound.{place_of};

use history_event::Module;
use relocator::{ModulePlace, TlsPlaces};
use std::alloc::{AllocError, Global};

/// Where modules are, for relocations that ask for one.
///
/// # Errors
///
/// Want of memory.
pub fn module_places(alloc: Global, modules: &[Module]) -> Result<TlsPlaces, AllocError>
    ensures { IfOk result (λ places. places ≡ map place_of modules.now) }
{
    let mut places = TlsPlaces::new(alloc);
    for module in modules {
        places.push(ModulePlace {
            serial: module.serial,
            number: module.number,
            offset: module.offset,
        })?;
    }
    Ok(places)
}
