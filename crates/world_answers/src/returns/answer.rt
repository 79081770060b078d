//! What the linker's answer makes of a hart.

ghost use Rattle.std.specs.Prelude.{◌≡◌, ◌<◌, ◌++◌, false, IsTrue, List, map};
ghost use Rattle.world_answers.specs.ReturnsPart.Answering.{WasAnswered, runs_functions};
ghost use Rattle.world_answers.specs.ReturnsPart.Noting.{with_passed};
ghost use Rattle.world_answers.specs.ReturnsPart.Steps.{TextFits, change_by, hart_after, noted_with};
ghost use Rattle.hart_moves.specs.Due.{due};
ghost use Rattle.hart_moves.specs.Moves.{passing, runs, spent};
ghost use Rattle.hart_seat.specs.HartParts.Views.{purpose_of};
ghost use Rattle.history_event.specs.declared.event.Event.{Event};
ghost use Rattle.history_state.specs.After.{after};
ghost use Rattle.history_state.specs.Setting.{Setting};
ghost use Rattle.history_calls.specs.Functions.{left, passed};
ghost use Rattle.world_memory.specs.TurnAnswers.Answered.{AnswersTurn};
ghost use Rattle.world_memory.specs.TurnAnswers.Following.{MayFollowAll};
ghost use Rattle.world_memory.specs.TurnAnswers.Turn.{TakesService};

use crate::returns::noting::note_front;
use crate::returns::returning::{CallReturn, due_return, return_by};
use hart_seat::{LinkedHart, Purpose, RA};
use history_calls::{constructors_follow, destructors_follow};
use history_event::Functions;
use history_state::ranges_apart;
use ld_base::HartId;
use link_state::LinkState;
use world_memory::{Answered, MemoryChange};

/// Takes the turn of a hart whose call the linker has answered: what the answer makes of the hart. Where
/// functions are to run, which takes room, the objects in front that have none pass at once, which is
/// noted. Answers what memory gets.
pub fn take_answer(
    state: &mut LinkState,
    id: HartId,
    hart: &mut LinkedHart,
    came: Answered,
) -> MemoryChange
    requires fuel { hart.old.hart.turns < hart.old.hart.fuel }
    requires room { IsTrue (runs_functions came) → 0 < hart.old.spare }
    requires answered { WasAnswered state.old id hart.old.hart came }
    ensures turn { (w : Setting) (past : List Event) → AnswersTurn w past state.old.events state.old.made id (due (after past) hart.old.hart) came
        → TakesService w past state.new.events state.new.made id (due (after past) hart.old.hart) hart.old.hart hart.new.hart result }
    ensures noted { (noted : List Event) × (state.new.events ≡ state.old.events ++ noted) }
    ensures kept { runs_functions came ≡ false → state.new ≡ state.old }
    ensures harts { state.new.harts ≡ state.old.harts }
    ensures made { state.new.made ≡ state.old.made }
{
    constructors_follow();
    destructors_follow();
    ranges_apart();
    let _ = state.journal();
    let by = due_return(hart);
    apply(state, id, hart, by, came)
}

/// What an answer makes of a hart whose call returns so.
fn apply(
    state: &mut LinkState,
    id: HartId,
    hart: &mut LinkedHart,
    by: CallReturn,
    came: Answered,
) -> MemoryChange
    requires fuel { hart.old.hart.turns < hart.old.hart.fuel }
    requires room { IsTrue (runs_functions came) → 0 < hart.old.spare }
    requires may { MayFollowAll state.old.harts state.old.events (noted_with hart.old.hart id came) }
    requires text { TextFits came }
    ensures state { state.new ≡ record state.old { events = state.old.events ++ noted_with hart.old.hart id came } }
    ensures hart { hart.new.hart ≡ hart_after hart.old.hart by came }
    ensures change { result ≡ change_by came }
{
    hart.settle();
    match came {
        Answered::Returns(value, change) => {
            return_by(hart, by, value);
            hart.spend();
            change
        }
        Answered::Loading(root, installs, functions) => {
            let purpose = Purpose::Opening(hart.registers().x[RA], root);
            begin(state, id, hart, purpose, functions);
            MemoryChange::Installs(installs)
        }
        Answered::Closing(dying, functions) => {
            let purpose = Purpose::Closing(hart.registers().x[RA], dying);
            begin(state, id, hart, purpose, functions);
            MemoryChange::Nothing
        }
        Answered::Granted(offered) => {
            hart.offer(offered);
            hart.spend();
            MemoryChange::Nothing
        }
        Answered::Told(text, message) => {
            hart.tell(text, message);
            hart.spend();
            MemoryChange::Nothing
        }
        Answered::Again(shown) => {
            hart.wait(shown);
            hart.spend();
            MemoryChange::Nothing
        }
        Answered::Over(reason) => {
            hart.spend();
            hart.stop(reason);
            MemoryChange::Nothing
        }
    }
}

/// A hart is to run functions. The objects in front that have none pass at once.
fn begin(
    state: &mut LinkState,
    id: HartId,
    hart: &mut LinkedHart,
    purpose: Purpose,
    functions: Functions,
)
    requires fuel { hart.old.hart.turns < hart.old.hart.fuel }
    requires room { 0 < hart.old.spare }
    requires may { MayFollowAll state.old.harts state.old.events (map (passing (purpose_of purpose) id) (passed functions)) }
    ensures state { state.new ≡ with_passed state.old (purpose_of purpose) id (passed functions) }
    ensures hart { hart.new.hart ≡ spent (runs (purpose_of purpose) (left functions) hart.old.hart.frames hart.old.hart) }
{
    let passed = note_front(state, id, &purpose, functions.as_slice());
    hart.run(purpose, functions, passed);
    hart.spend();
}
