//! Destructors.

ghost use Rattle.std.specs.Prelude.{◌≡◌, ℕ, Contains, map, reverse, IfOk, IsSome};
ghost use Rattle.history_state.specs.After.{after};
ghost use Rattle.history_state.specs.Links.{unfinished};
ghost use Rattle.history_state.specs.Memory.{image_of};
ghost use Rattle.history_calls.specs.Functions.{AreAddresses, AreDestructors, AreFinalDestructors, AreOf, destructors, object_of};

use crate::law::unfinished_are_mapped;
use history_event::{Addresses, Function, Functions};
use history_state::images_are_found;
use ld_base::Serial;
use link_images::destructor_order;
use link_state::LinkState;
use std::alloc::{AllocError, Global};

/// The destructors that are left at the end of a run, once every hart has ended: those of all mapped objects
/// that were initialised and not finalised, the latest first (gABI, "Initialization and Termination
/// Functions").
///
/// # Errors
///
/// Want of memory.
pub fn final_functions(alloc: Global, state: &LinkState) -> Result<Functions, AllocError>
    ensures { IfOk result (AreFinalDestructors (after state.now.events)) }
{
    unfinished_are_mapped();
    let _ = state.journal();
    all_destructors(alloc, state)
}

/// The destructors of the objects of a set that were initialised and not finalised, the latest first.
///
/// # Errors
///
/// Want of memory.
pub(crate) fn closing_destructors(
    alloc: Global,
    state: &LinkState,
    set: &[Serial],
) -> Result<Functions, AllocError>
    ensures { IfOk result (AreDestructors (after state.now.events) set.now) }
{
    unfinished_are_mapped();
    images_are_found();
    let _ = state.journal();
    let order = destructor_order(alloc, state.unfinished(), set)?;
    destructors_in(alloc, state, order.as_slice())
}

/// The destructors of all objects that were initialised and not finalised, the latest first.
///
/// # Errors
///
/// Want of memory.
fn all_destructors(alloc: Global, state: &LinkState) -> Result<Functions, AllocError>
    ensures order { IfOk result (λ all. map object_of all ≡ reverse (unfinished (after state.now.events))) }
    ensures addresses { IfOk result (AreOf (after state.now.events) destructors) }
{
    unfinished_are_mapped();
    images_are_found();
    let _ = state.journal();
    let order: Vec<Serial> = state.unfinished().iter().rev().copied().collect(alloc)?;
    destructors_in(alloc, state, order.as_slice())
}

/// The destructors of some objects, in this order.
///
/// # Errors
///
/// Want of memory.
fn destructors_in(
    alloc: Global,
    state: &LinkState,
    serials: &[Serial],
) -> Result<Functions, AllocError>
    requires there { (d : ℕ) → Contains serials.now d → IsSome (image_of (after state.now.events) d) }
    ensures order { IfOk result (λ all. map object_of all ≡ serials.now) }
    ensures addresses { IfOk result (AreOf (after state.now.events) destructors) }
{
    let mut all = Functions::new(alloc);
    for serial in serials {
        all.push(destructors_of(alloc, state, *serial)?)?;
    }
    Ok(all)
}

/// The destructors of an object.
///
/// # Errors
///
/// Want of memory.
fn destructors_of(alloc: Global, state: &LinkState, serial: Serial) -> Result<Function, AllocError>
    requires there { IsSome (image_of (after state.now.events) serial) }
    ensures object { IfOk result (λ f. f.object ≡ serial) }
    ensures addresses { IfOk result (λ f. AreAddresses destructors f.addresses (image_of (after state.now.events) serial)) }
{
    let Some(addresses) = state.finis(serial) else {
        unreachable!()
    };
    let addresses = Addresses::from_slice(alloc, addresses.as_slice())?;
    Ok(Function {
        object: serial,
        addresses,
    })
}
