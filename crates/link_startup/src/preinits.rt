//! What runs before all constructors.

ghost use Rattle.std.specs.Prelude.{◌≡◌, IfOk};
ghost use Rattle.history_state.specs.After.{after};
ghost use Rattle.history_state.specs.Memory.{image_of};
ghost use Rattle.history_calls.specs.Functions.{AreAddresses, preceded, preinits};
ghost use Rattle.link_startup.specs.Bringing.{IsBrought};

use crate::start_parts::startup_objects;
use history_calls::Installs;
use history_event::{Addresses, Functions};
use link_images::{preinit_count, push_preinits};
use link_state::LinkState;
use std::alloc::{AllocError, Global};

/// The entries of the program's DT_PREINIT_ARRAY, once it is opened.
///
/// # Errors
///
/// Want of memory.
pub(crate) fn preinits(
    alloc: Global,
    state: &LinkState,
    installs: &Installs,
) -> Result<Vec<u64>, AllocError>
    requires { IsBrought state.now.events installs.now }
    ensures { IfOk result (λ addresses. AreAddresses preinits addresses.items (image_of (after state.now.events) 1)) }
{
    let (objects, _) = startup_objects(state);
    let program = &objects[0];
    let image = &installs.images.as_slice()[0];
    let mut addresses = Vec::with_capacity(alloc, preinit_count(&program.object))?;
    push_preinits(&mut addresses, image, &program.object, program.base);
    Ok(addresses)
}

/// Functions with these addresses in front of the first object's.
///
/// # Errors
///
/// Want of memory.
pub(crate) fn preceded(
    mut addresses: Vec<u64>,
    functions: Functions,
) -> Result<Functions, AllocError>
    ensures { IfOk result (λ all. all ≡ preceded addresses.items functions) }
{
    let mut functions = functions.into_vec();
    if let Some(first) = functions.first_mut() {
        addresses.extend_from_slice(first.addresses.as_slice())?;
        first.addresses = Addresses::from(addresses);
    }
    Ok(Functions::from(functions))
}
