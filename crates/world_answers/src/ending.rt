//! Calls that end their hart.

ghost use Rattle.std.specs.Prelude.{◌≡◌, ◌<◌, IsTrue};
ghost use Rattle.history_event.specs.declared.event.Event.TheVariants.{Ended};
ghost use Rattle.history_calls.specs.Call.{stops};
ghost use Rattle.history_calls.specs.Ends.{is_own_end};
ghost use Rattle.link_state.specs.Table.{appended};
ghost use Rattle.world_answers.specs.Answers.{AnswersIn, MayEndIn};

use crate::law::ends_are_few;
use history_event::HartEnd;
use ld_base::HartId;
use link_state::LinkState;
use world_memory::Answered;

/// The hart ends, which is noted.
pub(crate) fn end(state: &mut LinkState, id: HartId, reason: HartEnd) -> Answered
    requires hart { id < state.old.harts }
    requires may_end { MayEndIn state.old id }
    ensures over { result ≡ Answered.Over reason }
    ensures noted { state.new ≡ appended state.old (Ended id reason) }
{
    ends_are_few();
    let _ = state.journal();
    let answer = over(&reason);
    state.ended(id, reason);
    answer
}

/// The hart is over.
fn over(reason: &HartEnd) -> Answered
    ensures { result ≡ Answered.Over reason.now }
{
    Answered::Over(*reason)
}

/// The hart runs no further, by an end of its own.
pub(crate) fn stop(state: &mut LinkState, id: HartId, reason: HartEnd) -> Answered
    requires hart { id < state.old.harts }
    requires may_end { MayEndIn state.old id }
    requires own { IsTrue (is_own_end reason) }
    ensures answered { AnswersIn state.old id (stops reason) result state.new }
    ensures harts { state.new.harts ≡ state.old.harts }
{
    end(state, id, reason)
}
