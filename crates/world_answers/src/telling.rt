//! The refusal that a hart is told.

ghost use Rattle.std.specs.Prelude.{◌≡◌, ◌<◌, find};
ghost use Rattle.std.specs.Option.{option_copied};
ghost use Rattle.hart_moves.specs.Moves.{stack_start};
ghost use Rattle.history_state.specs.After.{after};
ghost use Rattle.history_calls.specs.Call.{asks_fault};
ghost use Rattle.history_calls.specs.Startup.{is_stack};
ghost use Rattle.world_answers.specs.Answers.{AnswersIn, MayEndIn};
ghost use Rattle.world_answers.specs.Served.{told_at};

use crate::ending::end;
use history_event::{HartEnd, Purpose, Range};
use ld_base::{HartId, Name};
use link_calls::dlerror;
use link_state::LinkState;
use std::alloc::Global;
use world_memory::{Answered, MemoryChange};

/// The text of the refusal that is kept for the hart is to stand where its stack begins (dlerror(3)).
pub(crate) fn tell(alloc: Global, state: &mut LinkState, id: HartId) -> Answered
    requires hart { id < state.old.harts }
    requires may_end { MayEndIn state.old id }
    ensures answered { AnswersIn state.old id asks_fault result state.new }
    ensures harts { state.new.harts ≡ state.old.harts }
{
    let start = stack_start(state, id);
    match dlerror(alloc, state, id) {
        Ok(text) => told(start, text),
        Err(_) => end(state, id, HartEnd::Memory),
    }
}

/// What the hart is told: where there is no text the call returns with 0.
fn told(start: u64, text: Option<Name>) -> Answered
    ensures { result ≡ told_at start text }
{
    match text {
        Some(text) => Answered::Told(start, text),
        None => Answered::Returns(0, MemoryChange::Nothing),
    }
}

/// Where the stack of a hart begins.
fn stack_start(state: &LinkState, id: HartId) -> u64
    ensures { result ≡ stack_start (after state.now.events) id }
{
    let pages = state.ranges();
    match stack_among(pages, id) {
        Some(stack) => stack.address,
        None => 0,
    }
}

/// The pages among these that are for the stack of a hart.
fn stack_among(pages: &[Range], id: HartId) -> Option<&Range>
    ensures { option_copied result ≡ find (λ range. is_stack id range.purpose) pages.now }
{
    pages.iter().find(|range| is_stack(id, range.purpose))
}

/// Whether pages are for the stack of a hart.
fn is_stack(id: HartId, purpose: Purpose) -> bool
    ensures { result ≡ is_stack id purpose }
{
    match purpose {
        Purpose::Stack(hart) => hart == id,
        _ => false,
    }
}
