//! Closings and unmappings.

ghost use Rattle.std.specs.Prelude.{◌≡◌, ◌<◌};
ghost use Rattle.history_state.specs.After.{after};
ghost use Rattle.history_calls.specs.Call.{closes, unmaps};
ghost use Rattle.history_calls.specs.Waiting.{HasFinished};
ghost use Rattle.world_answers.specs.Answers.{AnswersIn, MayEndIn};

use crate::served::answer_with;
use history_event::{Dying, Removed};
use ld_base::{HartId, Shown};
use link_calls::dlclose;
use link_state::LinkState;
use std::alloc::Global;
use world_memory::{Answered, MemoryChange};

/// What dlclose returns with where it is refused: -1.
const NOT_CLOSED: u64 = u64::MAX;

/// A closing of a handle (dlclose(3)).
pub(crate) fn close(alloc: Global, state: &mut LinkState, id: HartId, handle: u64) -> Answered
    requires hart { id < state.old.harts }
    requires may_end { MayEndIn state.old id }
    ensures answered { AnswersIn state.old id (closes handle) result state.new }
    ensures harts { state.new.harts ≡ state.old.harts }
{
    let served = dlclose(alloc, state, id, handle);
    answer_with(state, id, served, MemoryChange::Nothing, NOT_CLOSED)
}

/// An unmapping of the objects of a closing, whose destructors have run.
pub(crate) fn unmap(state: &mut LinkState, id: HartId, dying: &Dying) -> Answered
    requires { HasFinished (after state.old.events) id dying.now.list }
    ensures answered { AnswersIn state.old id (unmaps dying.now.list) result state.new }
    ensures harts { state.new.harts ≡ state.old.harts }
{
    match state.apply_unmap(id, dying) {
        Ok(removed) => {
            let Removed { ranges, .. } = removed;
            Answered::Returns(0, MemoryChange::Removes(ranges))
        }
        Err(grant) => Answered::Again(Shown::OpenGrant(grant)),
    }
}
