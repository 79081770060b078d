//! Calls.

ghost use Rattle.std.specs.Prelude.{◌≡◌, ◌<◌, ◌≤◌, true, IsTrue, OnErr, OnOk};
ghost use Rattle.world_answers.specs.ReturnsPart.Answering.{runs_functions};
ghost use Rattle.world_answers.specs.Answers.{AnswersDue};
ghost use Rattle.world_answers.specs.Openings.{TurnReadsNothing, TurnRefusalIsCounted};
ghost use Rattle.world_answers.specs.GuestsPart.GuestWorlds.Worlds.{MayEndNow};
ghost use Rattle.hart_moves.specs.Due.{due};
ghost use Rattle.hart_moves.specs.Moves.{freed, spent};
ghost use Rattle.hart_moves.specs.Waiting.{awaiting};
ghost use Rattle.world_answers.specs.Answers.{is_service};
ghost use Rattle.history_event.specs.declared.event.Event.TheVariants.{Ended};
ghost use Rattle.history_event.specs.declared.hart_end.HartEnd.TheVariants.{Memory};
ghost use Rattle.history_state.specs.After.{after};
ghost use Rattle.history_state.specs.State.{State};
ghost use Rattle.link_state.specs.Table.{appended};
ghost use Rattle.world_answers.specs.GuestsPart.Asking.{may_run_functions};
ghost use Rattle.world_answers.specs.GuestsPart.Next.{TurnOpens, TurnTellsOver};
ghost use Rattle.world_answers.specs.GuestsPart.Taking.{HartTurnsOver, HasCalled, IsLegal, IsOutcome, MakesCall};

use crate::guests::asking::may_run_functions;
use crate::guests::guest_worlds::Turn;
use crate::guests::outcome::{outcome, shown_by};
use crate::{answer, awaited, take_answer};
use hart_seat::LinkedHart;
use history_calls::{files_only_narrow, refusals_come_in_order};
use history_event::HartEnd;
use ld_base::{HartId, Names, Shown};
use library_source::Library;
use link_state::LinkState;
use std::alloc::{AllocError, Global};
use world_memory::{Answered, PlainMemory};

/// The turn of a hart that has called the linker. While what its opening waits for is so, it waits, and nothing
/// is asked; else the call is made.
pub(crate) fn serve<L: Library>(
    alloc: Global,
    state: &mut LinkState,
    memory: &mut PlainMemory,
    hart: &mut LinkedHart,
    id: HartId,
    folders: &Names,
    library: &mut L,
) -> Turn
    requires hart { id < state.old.harts }
    requires legal { IsLegal state.old.harts folders.now state.old.events }
    requires may { HasCalled state.old.harts state.old.events id hart.old.hart }
    ensures turns { HartTurnsOver folders.now (L.files library.old) state.old state.new memory.old memory.new id hart.old.hart hart.new.hart }
    ensures outcome { IsOutcome hart.new.hart result }
    ensures tells { TurnTellsOver state.old.harts folders.now (L.files library.old) state.old.events state.new.events id
        (due (after state.old.events) hart.old.hart) result }
    ensures whole { TurnOpens state.old.harts folders.now (L.files library.old) (L.faults library.old) (L.faults library.new)
        state.old.events state.new.events id result (due (after state.old.events) hart.old.hart) }
    ensures counts { TurnRefusalIsCounted folders.now state.old.events state.new.events id (due (after state.old.events) hart.old.hart)
        (L.faults library.old) (L.faults library.new) (L.misses library.old) (L.misses library.new) }
    ensures unread { TurnReadsNothing (after state.old.events) (due (after state.old.events) hart.old.hart) → library.new ≡ library.old }
    ensures files { L.files library.new ≡ L.files library.old }
    ensures faults { L.faults library.old ≤ L.faults library.new }
    ensures misses { L.misses library.old ≤ L.misses library.new }
    ensures harts { state.new.harts ≡ state.old.harts }
{
    match awaited(state, hart) {
        Some(shown) => wait(hart, &shown),
        None => make_call(alloc, state, memory, hart, id, folders, library),
    }
}

/// The turn of a hart that waits still.
fn wait(hart: &mut LinkedHart, shown: &Shown) -> Turn
    requires { hart.old.hart.turns < hart.old.hart.fuel }
    ensures result { result ≡ Turn.Again shown.now }
    ensures hart { hart.new.hart ≡ spent (awaiting shown.now (freed hart.old.hart)) }
{
    hart.settle();
    hart.wait(*shown);
    hart.spend();
    Turn::Again(*shown)
}

/// The turn of a call: what the linker answers, and what that makes of the hart and of memory.
fn make_call<L: Library>(
    alloc: Global,
    state: &mut LinkState,
    memory: &mut PlainMemory,
    hart: &mut LinkedHart,
    id: HartId,
    folders: &Names,
    library: &mut L,
) -> Turn
    requires hart { id < state.old.harts }
    requires legal { IsLegal state.old.harts folders.now state.old.events }
    requires may { MakesCall state.old.harts state.old.events id hart.old.hart }
    ensures turns { HartTurnsOver folders.now (L.files library.old) state.old state.new memory.old memory.new id hart.old.hart hart.new.hart }
    ensures outcome { IsOutcome hart.new.hart result }
    ensures tells { TurnTellsOver state.old.harts folders.now (L.files library.old) state.old.events state.new.events id
        (due (after state.old.events) hart.old.hart) result }
    ensures whole { TurnOpens state.old.harts folders.now (L.files library.old) (L.faults library.old) (L.faults library.new)
        state.old.events state.new.events id result (due (after state.old.events) hart.old.hart) }
    ensures counts { TurnRefusalIsCounted folders.now state.old.events state.new.events id (due (after state.old.events) hart.old.hart)
        (L.faults library.old) (L.faults library.new) (L.misses library.old) (L.misses library.new) }
    ensures unread { TurnReadsNothing (after state.old.events) (due (after state.old.events) hart.old.hart) → library.new ≡ library.old }
    ensures files { L.files library.new ≡ L.files library.old }
    ensures faults { L.faults library.old ≤ L.faults library.new }
    ensures misses { L.misses library.old ≤ L.misses library.new }
    ensures harts { state.new.harts ≡ state.old.harts }
{
    files_only_narrow();
    refusals_come_in_order();
    let came = answer_with_room(alloc, state, hart, id, folders, library);
    let waits = shown_by(&came);
    let change = take_answer(state, id, hart, came);
    memory.apply(&change, state.made_block());
    outcome(hart, waits)
}

/// What the linker answers the call. Where it may have the hart run functions, it has room for them then: the
/// hart ends where there is none.
pub fn answer_with_room<L: Library>(
    alloc: Global,
    state: &mut LinkState,
    hart: &mut LinkedHart,
    id: HartId,
    folders: &Names,
    library: &mut L,
) -> Answered
    requires hart { id < state.old.harts }
    requires may { MakesCall state.old.harts state.old.events id hart.old.hart }
    ensures answered { AnswersDue state.old folders.now (L.files library.old) id (due (after state.old.events) hart.old.hart) result state.new }
    ensures room { IsTrue (runs_functions result) → 0 < hart.new.spare }
    ensures hart { hart.new.hart ≡ hart.old.hart }
    ensures counts { TurnRefusalIsCounted folders.now state.old.events state.new.events id (due (after state.old.events) hart.old.hart)
        (L.faults library.old) (L.faults library.new) (L.misses library.old) (L.misses library.new) }
    ensures unread { TurnReadsNothing (after state.old.events) (due (after state.old.events) hart.old.hart) → library.new ≡ library.old }
    ensures files { L.files library.new ≡ L.files library.old }
    ensures faults { L.faults library.old ≤ L.faults library.new }
    ensures misses { L.misses library.old ≤ L.misses library.new }
    ensures harts { state.new.harts ≡ state.old.harts }
{
    if make_room(hart).is_err() {
        return end_for_memory(state, id);
    }
    match answer(alloc, state, id, hart, folders, library) {
        Some(came) => came,
        None => unreachable!(),
    }
}

/// Makes room for functions, where the linker may have the hart run some by its call.
///
/// # Errors
///
/// Want of memory. Nothing has changed then.
fn make_room(hart: &mut LinkedHart) -> Result<(), AllocError>
    ensures room { OnOk result ((s : State) → may_run_functions (due s hart.old.hart) ≡ true → 0 < hart.new.spare) }
    ensures err { OnErr result ((s : State) → is_service (due s hart.old.hart) ≡ true → may_run_functions (due s hart.old.hart) ≡ true) }
    ensures hart { hart.new.hart ≡ hart.old.hart }
{
    if !may_run_functions(hart) {
        return Ok(());
    }
    hart.make_room()
}

/// The hart ends for want of memory, which is noted.
fn end_for_memory(state: &mut LinkState, id: HartId) -> Answered
    requires { MayEndNow state.old.harts state.old.events id }
    ensures over { result ≡ Answered.Over Memory }
    ensures noted { state.new ≡ appended state.old (Ended id Memory) }
{
    state.ended(id, HartEnd::Memory);
    Answered::Over(HartEnd::Memory)
}
