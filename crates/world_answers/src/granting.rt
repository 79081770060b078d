//! Slots that are called for the first time.

ghost use Rattle.std.specs.Prelude.{◌≡◌, ◌<◌};
ghost use Rattle.hart_seat.specs.HartParts.Views.{offered_of};
ghost use Rattle.history_state.specs.After.{after};
ghost use Rattle.history_state.specs.Slots.{HasNoGrant};
ghost use Rattle.history_calls.specs.Call.{resolves};
ghost use Rattle.world_answers.specs.Answers.{AnswersIn, MayEndIn};
ghost use Rattle.world_answers.specs.Faults.{grant_end, offer_of};

use crate::ending::end;
use hart_seat::Offered;
use history_event::{Granted, HartEnd};
use history_state::images_are_found;
use ld_base::HartId;
use link_state::{GrantFault, LinkState};
use world_memory::Answered;

/// A call through a slot that isn't bound: `eights` is eight times the slot's number.
pub(crate) fn resolve(state: &mut LinkState, id: HartId, owner: u64, eights: u64) -> Answered
    requires hart { id < state.old.harts }
    requires free { HasNoGrant (after state.old.events) id }
    requires may_end { MayEndIn state.old id }
    ensures answered { AnswersIn state.old id (resolves owner eights) result state.new }
    ensures harts { state.new.harts ≡ state.old.harts }
{
    images_are_found();
    let _ = state.journal();
    match state.grant(id, owner, eights) {
        Ok(granted) => Answered::Granted(offer(&granted)),
        Err(fault) => end(state, id, grant_end(fault)),
    }
}

/// A grant, as its hart gets it.
fn offer(granted: &Granted) -> Offered
    ensures { offered_of result ≡ offer_of granted.now }
{
    Offered {
        number: granted.grant,
        slot: granted.slot,
        lazy: granted.lazy,
        value: granted.value,
    }
}

/// As what a hart ends whose slot isn't granted.
fn grant_end(fault: GrantFault) -> HartEnd
    ensures { result ≡ grant_end fault }
{
    match fault {
        GrantFault::Unloaded(owner) => HartEnd::Unloaded(owner),
        GrantFault::NoSlot(owner, eights) => HartEnd::NoSlot(owner, eights),
        GrantFault::Missing(owner, slot) => HartEnd::Unresolved(owner, slot),
        GrantFault::NotCode(owner, slot) => HartEnd::NotCode(owner, slot),
        GrantFault::Memory => HartEnd::Memory,
    }
}
