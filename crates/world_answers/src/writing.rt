//! Writes.

ghost use Rattle.std.specs.Prelude.{◌≡◌, ◌<◌};
ghost use Rattle.history_state.specs.Allowed.{MayWrite};
ghost use Rattle.history_calls.specs.Call.{writes};
ghost use Rattle.world_answers.specs.Answers.{AnswersIn, MayEndIn};

use crate::ending::end;
use history_event::HartEnd;
use ld_base::HartId;
use link_state::LinkState;
use world_memory::{Answered, MemoryChange};

/// A write of some bytes (write(2)).
pub(crate) fn write(state: &mut LinkState, id: HartId, bytes: &[u8]) -> Answered
    requires hart { id < state.old.harts }
    requires may_end { MayEndIn state.old id }
    requires few { MayWrite bytes.now }
    ensures answered { AnswersIn state.old id (writes bytes.now) result state.new }
    ensures harts { state.new.harts ≡ state.old.harts }
{
    match state.wrote(id, bytes) {
        Ok(()) => Answered::Returns(bytes.len() as u64, MemoryChange::Nothing),
        Err(_) => end(state, id, HartEnd::Memory),
    }
}
