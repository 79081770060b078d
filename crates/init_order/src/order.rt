//! The orders.

ghost use Rattle.std.specs.Prelude.{◌≡◌, ℕ, IfOk, filter, nat_eq, reverse};
ghost use Rattle.std.specs.HashSet.{contains};
ghost use Rattle.history_graph.specs.Initialised.{fini_list, is_one_of};

use ld_base::Serial;
use std::alloc::{AllocError, Global};
use std::collections::HashSet;

/// The objects of a set that were initialised, the latest first: the order in which their
/// destructors run. `inits` has the objects that were initialised and not finalised, in the order of
/// their initialisation.
///
/// # Errors
///
/// Want of memory.
pub fn fini_order(
    alloc: Global,
    inits: &[Serial],
    dying: &[Serial],
) -> Result<Vec<Serial>, AllocError>
    ensures { IfOk result (λ order. order.items ≡ fini_list inits.now dying.now) }
{
    let set = set_of(alloc, dying)?;
    members_backwards(alloc, inits, &set)
}

/// The serials as a set.
fn set_of(alloc: Global, serials: &[Serial]) -> Result<HashSet<Serial>, AllocError>
    ensures { IfOk result (λ set. (q : ℕ) → contains nat_eq set q ≡ is_one_of serials.now q) }
{
    let mut set = HashSet::new(alloc);
    for serial in serials {
        set.insert(*serial)?;
    }
    Ok(set)
}

/// The serials that are in the set, from the last to the first.
fn members_backwards(
    alloc: Global,
    serials: &[Serial],
    set: &HashSet<Serial>,
) -> Result<Vec<Serial>, AllocError>
    ensures { IfOk result (λ members. members.items ≡ filter (λ d. contains nat_eq set.now d) (reverse serials.now)) }
{
    let backwards = serials.iter().rev().copied();
    backwards
        .filter(|serial| set.contains(serial))
        .collect(alloc)
}
