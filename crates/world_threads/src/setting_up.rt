//! Memory with what startup brings, and the harts of a run.

ghost use Rattle.std.specs.List.{slice_get};
ghost use Rattle.std.specs.Prelude.{◌≡◌, ℕ, ◌<◌, ◌≤◌, ◌^◌, false, List, [], Contains, IfOk, OnErr, OnOk, Some, length, map};
ghost use Rattle.hart_moves.specs.Harts.Purpose.{of_startup};
ghost use Rattle.hart_moves.specs.Moves.{runs};
ghost use Rattle.hart_moves.specs.Starting.{starting_hart, starting_harts, starting_registers};
ghost use Rattle.history_event.specs.declared.handed.HartEntry.{HartEntry};
ghost use Rattle.tls_blocks.specs.Blocks.{BlockTable};
ghost use Rattle.word_installs.specs.Starting.{IsStartup};
ghost use Rattle.word_memory.specs.WordSeats.Making.{new_harts};
ghost use Rattle.word_rule.specs.Views.{IsLong};
ghost use Rattle.world_threads.specs.Setting.{AreSetOff, IsSetUp, KeepsNone, hears};

use hart_linker::{HartBlocks, RunNaming};
use hart_seat::{LinkedHart, Purpose};
use hart_threads::HartRun;
use history_calls::Installs;
use history_event::{Event, Functions, HartEntry};
use link_state::LinkState;
use std::alloc::{AllocError, Global};
use word_installs::{install, startup_is_kept};
use word_memory::{
    Fresh, HartSeat, HartSeats, KeeperSeat, Memory, Naming, Seats, count_up, name_memory, row_word,
    tell,
};
use word_rule::{KeeperKind, RowWord};

/// Memory with what startup brings, and the keeper's and the harts' seats.
///
/// # Errors
///
/// Want of memory.
pub(crate) fn starting_memory<J: RunNaming>(
    alloc: Global,
    fresh: Fresh,
    state: &LinkState,
    installs: &Installs,
) -> Result<(Memory<J>, Seats<J>), AllocError>
    requires name { fresh ≡ J.table }
    requires few { state.now.harts ≤ 16 }
    requires harts { J.setting.machine.harts ≡ state.now.harts }
    requires brings { IsStartup J.setting state.now.events installs.now }
    ensures keeper { IfOk result (λ made. IsSetUp J.setting state.now.events made.1.keeper) }
    ensures harts { IfOk result (λ made. made.1.harts ≡ new_harts state.now.harts) }
{
    startup_is_kept();
    let (memory, seats) = name_memory::<J>(fresh, alloc, state.harts())?;
    let Seats { keeper, harts } = seats;
    let mut keeper = keeper;
    count_all(&memory, &mut keeper, state.journal().as_slice());
    install(&memory, &mut keeper, installs, state.modules().generation());
    knows_all(&memory, &mut keeper);
    Ok((memory, Seats { keeper, harts }))
}

/// Counts startup's events.
fn count_all<J: Naming>(memory: &Memory<J>, keeper: &mut KeeperSeat<J>, events: &[Event])
    requires { keeper.old.events ≡ [] }
    ensures { keeper.new ≡ record keeper.old { events = events.now } }
{
    for event in events {
        count_up(memory, keeper, event);
    }
}

/// A load that changes nothing: what the keeper knows of doublewords and rows is of all that there are.
fn knows_all<J: Naming>(memory: &Memory<J>, keeper: &mut KeeperSeat<J>)
    ensures keeper { keeper.new ≡ keeper.old }
    ensures long { IsLong keeper.old }
{
    let kind = KeeperKind::Recall(0, RowWord::Number);
    let _ = keeper.load_word(memory, row_word(0, RowWord::Number), kind);
}

/// The harts of a run with these seats, which start with these registers. The first one runs functions
/// before. Each is told of the events so far.
///
/// # Errors
///
/// Want of memory.
pub(crate) fn starting_runs<J: RunNaming>(
    alloc: Global,
    memory: &Memory<J>,
    keeper: &mut KeeperSeat<J>,
    seats: HartSeats<J>,
    entries: &[HartEntry],
    functions: Functions,
    fuel: u64,
) -> Result<Vec<HartRun<J>>, AllocError>
    requires some { 0 < length entries.now }
    requires seats { seats ≡ new_harts (length entries.now) }
    requires fuel { fuel ≤ 2 ^ 32 }
    ensures keeper { keeper.new ≡ keeper.old }
    ensures set_off { IfOk result (λ runs. AreSetOff keeper.old.events fuel functions entries.now
        (map (λ r. r.seat) runs.items) (map (λ r. r.hart.hart) runs.items) (map (λ r. r.blocks) runs.items)) }
{
    let mut runs = runs_at(alloc, memory, keeper, seats, entries, fuel)?;
    first_before(runs.as_mut_slice(), entries[0], functions)?;
    Ok(runs)
}

/// The first of these harts runs functions before it starts.
///
/// # Errors
///
/// Want of memory.
fn first_before<J: RunNaming>(
    runs: &mut [HartRun<J>],
    entry: HartEntry,
    functions: Functions,
) -> Result<(), AllocError>
    requires some { 0 < length runs.old }
    ensures seats { map (λ r. r.seat) runs.new ≡ map (λ r. r.seat) runs.old }
    ensures harts { OnOk result ((fuel : ℕ) (entries : List HartEntry) → slice_get entries 0 ≡ Some entry
        → map (λ r. r.hart.hart) runs.old ≡ map (starting_hart fuel) entries
        → map (λ r. r.hart.hart) runs.new ≡ starting_harts fuel functions entries) }
    ensures blocks { map (λ r. r.blocks) runs.new ≡ map (λ r. r.blocks) runs.old }
{
    run_before(&mut runs[0].hart, entry, functions)
}

/// A hart runs functions before it starts.
///
/// # Errors
///
/// Want of memory. Nothing has changed then.
fn run_before(
    hart: &mut LinkedHart,
    entry: HartEntry,
    functions: Functions,
) -> Result<(), AllocError>
    ensures run { OnOk result (hart.new.hart ≡ runs (of_startup (starting_registers entry)) functions hart.old.hart.frames hart.old.hart) }
    ensures err { OnErr result (hart.new.hart ≡ hart.old.hart) }
{
    hart.make_room()?;
    hart.run(Purpose::Startup(entry), functions, 0);
    Ok(())
}

/// The harts of a run with these seats, which start with these registers, and run nothing before.
///
/// # Errors
///
/// Want of memory.
fn runs_at<J: RunNaming>(
    alloc: Global,
    memory: &Memory<J>,
    keeper: &mut KeeperSeat<J>,
    seats: HartSeats<J>,
    entries: &[HartEntry],
    fuel: u64,
) -> Result<Vec<HartRun<J>>, AllocError>
    requires seats { seats ≡ new_harts (length entries.now) }
    requires fuel { fuel ≤ 2 ^ 32 }
    ensures keeper { keeper.new ≡ keeper.old }
    ensures seats { IfOk result (λ runs. map (λ r. r.seat) runs.items ≡ map (hears keeper.old.events) (new_harts (length entries.now))) }
    ensures harts { IfOk result (λ runs. map (λ r. r.hart.hart) runs.items ≡ map (starting_hart fuel) entries.now) }
    ensures blocks { IfOk result (λ runs. (b : BlockTable) → Contains (map (λ r. r.blocks) runs.items) b → KeepsNone b) }
{
    let mut runs = Vec::new(alloc);
    for seat in seats.into_vec() {
        let entry = entries[runs.len()];
        runs.push(run_at(alloc, memory, keeper, seat, entry, fuel))?;
    }
    Ok(runs)
}

/// A hart with this seat, which starts with these registers. It is told of the events so far.
fn run_at<J: RunNaming>(
    alloc: Global,
    memory: &Memory<J>,
    keeper: &mut KeeperSeat<J>,
    seat: HartSeat<J>,
    entry: HartEntry,
    fuel: u64,
) -> HartRun<J>
    requires seat { seat.lane.calling ≡ false }
    requires fuel { fuel ≤ 2 ^ 32 }
    ensures keeper { keeper.new ≡ keeper.old }
    ensures seat { result.seat ≡ hears keeper.old.events seat }
    ensures hart { result.hart.hart ≡ starting_hart fuel entry }
    ensures blocks { KeepsNone result.blocks }
{
    let mut seat = seat;
    tell(memory, keeper, &mut seat);
    HartRun {
        seat,
        hart: LinkedHart::new(alloc, fuel, entry),
        blocks: HartBlocks::new(alloc),
    }
}
