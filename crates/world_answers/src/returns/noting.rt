//! Objects pass: their constructors or destructors have run, or they have none.

ghost use Rattle.std.specs.Prelude.{◌≡◌, ◌≤◌, drop, length, map};
ghost use Rattle.world_answers.specs.ReturnsPart.Noting.{with_passed};
ghost use Rattle.hart_moves.specs.Moves.{passing};
ghost use Rattle.hart_seat.specs.HartParts.Views.{purpose_of};
ghost use Rattle.history_journal.specs.Following.{MayFollow};
ghost use Rattle.history_calls.specs.Functions.{left, object_of, passed};
ghost use Rattle.link_state.specs.Table.{appended};
ghost use Rattle.world_memory.specs.TurnAnswers.Following.{MayFollowAll};

use hart_seat::{Purpose, passed_objects};
use history_event::Function;
use ld_base::{HartId, Serial};
use link_state::LinkState;

/// An object passes.
pub(crate) fn note(state: &mut LinkState, id: HartId, purpose: &Purpose, object: Serial)
    requires { MayFollow state.old.harts state.old.events (passing (purpose_of purpose.now) id object) }
    ensures { state.new ≡ appended state.old (passing (purpose_of purpose.now) id object) }
{
    match purpose {
        Purpose::Startup(_) | Purpose::Opening(..) => state.initialised(id, object),
        Purpose::Closing(..) | Purpose::End(_) => state.finalised(id, object),
    }
}

/// Objects pass, one after another.
fn note_all(state: &mut LinkState, id: HartId, purpose: &Purpose, functions: &[Function])
    requires { MayFollowAll state.old.harts state.old.events (map (passing (purpose_of purpose.now) id) (map object_of functions.now)) }
    ensures { state.new ≡ with_passed state.old (purpose_of purpose.now) id (map object_of functions.now) }
{
    for function in functions {
        note(state, id, purpose, function.object);
    }
}

/// The objects in front that have no functions pass. Answers how many these are.
pub(crate) fn note_front(
    state: &mut LinkState,
    id: HartId,
    purpose: &Purpose,
    functions: &[Function],
) -> usize
    requires { MayFollowAll state.old.harts state.old.events (map (passing (purpose_of purpose.now) id) (passed functions.now)) }
    ensures state { state.new ≡ with_passed state.old (purpose_of purpose.now) id (passed functions.now) }
    ensures within { result ≤ length functions.now }
    ensures left { drop result functions.now ≡ left functions.now }
{
    let count = passed_objects(functions);
    note_all(state, id, purpose, &functions[..count]);
    count
}
