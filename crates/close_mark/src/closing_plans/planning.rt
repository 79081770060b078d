//! What a closing needs.

ghost use Rattle.std.specs.Prelude.{◌≡◌, map, IfOk, IfSome};
ghost use Rattle.std.specs.List.{flat_map};
ghost use Rattle.std.specs.Option.{option_to_list};
ghost use Rattle.close_mark.specs.ClosingPlans.Plans.{IsRoomy};
ghost use Rattle.history_state.specs.Objects.{serial_of};
ghost use Rattle.history_state.specs.Step.{closing_of as waiting_of};
ghost use Rattle.link_spaces.specs.PendingClosingsPart.Pending.{closing_of};

use crate::unmapped_objects::count_in;
use history_event::Dying;
use ld_base::{HartId, Serial, Serials};
use link_spaces::{Pending, ReservedPages};
use scope_rule::Namespace;
use std::alloc::{AllocError, Global};

/// A closing of some objects that is to be made.
#[derive(Drop)]
pub struct ClosingPlan {
    /// The objects, for its event.
    pub list: Serials,
    /// The same, for whoever runs their destructors.
    pub dying: Dying,
    /// The closing as it waits for its unmapping; none where nothing dies.
    pub pending: Option<Pending>,
}

impl ClosingPlan {
    /// A closing of these objects by a hart, with room for what its unmapping will hand out.
    ///
    /// # Errors
    ///
    /// Want of memory.
    pub fn new(
        alloc: Global,
        hart: HartId,
        set: Serials,
        namespaces: &[Namespace],
        reserved: &ReservedPages,
    ) -> Result<Self, AllocError>
        ensures list { IfOk result (λ plan. plan.list ≡ set) }
        ensures dying { IfOk result (λ plan. plan.dying.list ≡ set) }
        ensures waits { IfOk result (λ plan. map closing_of (option_to_list plan.pending) ≡ waiting_of hart set) }
        ensures roomy { IfOk result (λ plan.
            IfSome plan.pending (IsRoomy (map serial_of (flat_map (λ ns. ns.objects) namespaces.now)) reserved.now.ranges)) }
    {
        let pending = pending_of(alloc, hart, set.as_slice(), namespaces, reserved)?;
        let list = Serials::from(Vec::from_slice(alloc, set.as_slice())?);
        Ok(ClosingPlan {
            list: set,
            dying: Dying { list },
            pending,
        })
    }
}

/// The closing as it waits, where there are objects.
fn pending_of(
    alloc: Global,
    hart: HartId,
    set: &[Serial],
    namespaces: &[Namespace],
    reserved: &ReservedPages,
) -> Result<Option<Pending>, AllocError>
    ensures waits { IfOk result (λ pending. map closing_of (option_to_list pending) ≡ waiting_of hart set.now) }
    ensures roomy { IfOk result (λ pending.
        IfSome pending (IsRoomy (map serial_of (flat_map (λ ns. ns.objects) namespaces.now)) reserved.now.ranges)) }
{
    if set.is_empty() {
        return Ok(None);
    }
    let objects = count_in(namespaces, set)?;
    let ranges = reserved.count_going(set);
    let list = Serials::from(Vec::from_slice(alloc, set)?);
    let pending = Pending::new(alloc, hart, list, objects, ranges)?;
    Ok(Some(pending))
}
