//! A whole run.

ghost use Rattle.std.specs.Prelude.{◌≡◌, ◌≤◌, ◌<◌, ◌^◌, false, [], IfErr, IfOk, Some, drop, length, map};
ghost use Rattle.std.specs.List.{slice_get};
ghost use Rattle.std.specs.Vec.{vec_capacity};
ghost use Rattle.history_calls.specs.CallLaws.Counts.{ArePathsAtStart, ShowsInCounts};
ghost use Rattle.history_calls.specs.Startup.{Starts, harts_of};
ghost use Rattle.history_calls.specs.declared.link_served.startup.Setup.{Setup as setup_value};
ghost use Rattle.history_calls.specs.declared.link_served.startup.Started.{Started as started_value};
ghost use Rattle.history_journal.specs.Following.{machine_of};
ghost use Rattle.history_state.specs.Accepted.{AcceptsOnly};
ghost use Rattle.history_state.specs.After.{after};
ghost use Rattle.history_state.specs.Objects.{is_startup};
ghost use Rattle.link_keeper.specs.Attending.{NobodysCame};
ghost use Rattle.link_keeper.specs.Keeping.{KeepsState};
ghost use Rattle.link_keeper.specs.Rounds.{AreRounds};
ghost use Rattle.link_open_plan.specs.Startup.{run_of};
ghost use Rattle.link_startup.specs.Startup.{IsNotStarted, StartsWhereItCan, startup_refusal};
ghost use Rattle.word_rule.specs.Views.{BeginsWith};
ghost use Rattle.world_answers.specs.GuestsPart.Counting.{Rise, counts_at};
ghost use Rattle.world_threads.specs.Running.{ComesOf, HaveRun, IsNamed, SetsOff};
ghost use Rattle.world_threads.specs.Setting.{AreSetOff, IsSetUp};
ghost use Rattle.world_threads.specs.Threaded.{IsThreaded, left_events};
ghost use Rattle.world_turns.specs.Counts.{ShowInCounts};

use crate::ending::ends_of;
use crate::rising::Rising;
use crate::setting_up::{starting_memory, starting_runs};
use hart_fits::{events_have_owners, harts_fit, running_is_not_over};
use hart_linker::{Linker, RunNaming};
use hart_moves::{turns_append, turns_are_counted};
use hart_threads::{HartRun, run_harts, start_harts, ways_are_whole};
use hart_trails::{blocks_are_asked_once, fuel_bounds_turns, trails_end, trails_follow};
use history_calls::{Setup, StartFault, Started, run_journals_grow, served_calls_are_legal};
use history_event::{Ends, HartEnd, HartEntry};
use history_journal::accepted_object;
use ld_base::Names;
use library_source::Library;
use link_keeper::{Keeper, finish};
use link_lists::Copied;
use link_startup::startup;
use link_state::LinkState;
use std::alloc::{AllocError, Global};
use std::marker::Brand;
use std::sync::Wait;
use std::thread::Threads;
use trace_text::RunRecord;
use word_memory::{Fresh, HartSeat, KeeperSeat, Memory, Seats, Trails};
use world_turns::counts_show;

/// What a run leaves that is over.
#[derive(Drop)]
pub struct Ran {
    /// Its journal, and how each hart ended.
    pub left: RunRecord,
    /// What each hart did.
    pub trails: Trails,
}

/// A run that is set up, but for the linker's state.
#[derive(Drop)]
struct Ready<J: RunNaming> {
    memory: Memory<J>,
    keeper: KeeperSeat<J>,
    /// In order of number.
    runs: Vec<HartRun<J>>,
    /// Room for how each of them ends.
    ends: Vec<HartEnd>,
    /// Room for their seats.
    seats: Vec<HartSeat<J>>,
    folders: Names,
    /// With which registers the first hart starts.
    entry: HartEntry,
}

/// Starts a run, and runs its harts on threads to their ends: the first one alone until startup's constructors
/// are over, then all side by side, and then the first in the final destructors. The library is handed back.
///
/// Where the library tells its files, nothing but a failed read or want of memory stops a run that can start
/// over them.
///
/// # Errors
///
/// The first refusal of startup, with the events up to it, or want of memory. The library's counts show that a
/// read failed, and that paths were missed.
pub fn run_program<R: Threads + Wait + Sync, L: Library + Send + Drop>(
    rt: &R,
    alloc: Global,
    setup: &Setup,
    library: L,
) -> (Result<Ran, StartFault>, L)
    requires few { harts_of setup.now ≤ 16 }
    requires fuel { setup.now.fuel ≤ 2 ^ 32 }
    ensures ran { IfOk result.0 (λ ran. IsThreaded (run_of setup.now (L.files library)) setup.now ran.left ran.trails) }
    ensures refused { IfErr result.0 (IsNotStarted (run_of setup.now (L.files library)) setup.now) }
    ensures whole { StartsWhereItCan setup.now (L.files library) (L.faults library) (L.faults result.1) result.0 }
    ensures counts { ShowsInCounts (ArePathsAtStart setup.now.folders setup.now.program) (startup_refusal result.0)
        (L.faults library) (L.faults result.1) (L.misses library) (L.misses result.1) }
    ensures shows { ShowInCounts setup.now.folders (left_events result.0) (counts_at L.faults L.misses library) (counts_at L.faults L.misses result.1) }
    ensures files { L.files result.1 ≡ L.files library }
    ensures faults { L.faults library ≤ L.faults result.1 }
    ensures misses { L.misses library ≤ L.misses result.1 }
{
    counts_show();
    let mut library = library;
    match startup(alloc, setup, &mut library) {
        Ok((state, started)) => run_started(rt, alloc, setup, state, started, library),
        Err(why) => (Err(why), library),
    }
}

/// Runs the harts of a run that has started.
///
/// # Errors
///
/// Want of memory. The library is as it was then.
fn run_started<R: Threads + Wait + Sync, L: Library + Send + Drop>(
    rt: &R,
    alloc: Global,
    setup: &Setup,
    state: LinkState,
    started: Started,
    library: L,
) -> (Result<Ran, StartFault>, L)
    requires few { harts_of setup.now ≤ 16 }
    requires fuel { setup.now.fuel ≤ 2 ^ 32 }
    requires starts { Starts (run_of setup.now (L.files library)) setup.now state.events started }
    requires harts { state.harts ≡ harts_of setup.now }
    requires over { is_startup (after state.events) ≡ false }
    ensures comes { ComesOf (run_of setup.now (L.files library)) setup.now state.events (counts_at L.faults L.misses library)
        result.0 (counts_at L.faults L.misses result.1) }
    ensures files { L.files result.1 ≡ L.files library }
{
    match Memory::new(alloc) {
        Ok(fresh) => { run_named::<Brand, R, L>(rt, alloc, fresh, setup, state, started, library) }
        Err(AllocError) => (Err(StartFault::Memory), library),
    }
}

/// So it does where the memory is one with this name, and so is the run.
///
/// # Errors
///
/// Want of memory. The library is as it was then.
fn run_named<J: RunNaming + Send + Sync, R: Threads + Wait + Sync, L: Library + Send + Drop>(
    rt: &R,
    alloc: Global,
    fresh: Fresh,
    setup: &Setup,
    state: LinkState,
    started: Started,
    library: L,
) -> (Result<Ran, StartFault>, L)
    requires name { fresh ≡ J.table }
    requires run { IsNamed J.setting J.journal J.counts (run_of setup.now (L.files library)) state.events (counts_at L.faults L.misses library) }
    requires few { harts_of setup.now ≤ 16 }
    requires fuel { setup.now.fuel ≤ 2 ^ 32 }
    requires starts { Starts (run_of setup.now (L.files library)) setup.now state.events started }
    requires harts { state.harts ≡ harts_of setup.now }
    requires over { is_startup (after state.events) ≡ false }
    ensures comes { ComesOf (run_of setup.now (L.files library)) setup.now state.events (counts_at L.faults L.misses library)
        result.0 (counts_at L.faults L.misses result.1) }
    ensures files { L.files result.1 ≡ L.files library }
{
    accepted_object();
    match set_up::<J>(alloc, fresh, setup, &state, started) {
        Ok(ready) => {
            let (ran, library) = run_ready(rt, alloc, state, ready, library);
            (Ok(ran), library)
        }
        Err(AllocError) => (Err(StartFault::Memory), library),
    }
}

/// Memory with what startup brings, the seats, and the harts.
///
/// # Errors
///
/// Want of memory.
fn set_up<J: RunNaming>(
    alloc: Global,
    fresh: Fresh,
    setup: &Setup,
    state: &LinkState,
    started: Started,
) -> Result<Ready<J>, AllocError>
    requires name { fresh ≡ J.table }
    requires few { harts_of setup.now ≤ 16 }
    requires fuel { setup.now.fuel ≤ 2 ^ 32 }
    requires starts { Starts J.setting setup.now state.now.events started }
    requires accepts { AcceptsOnly J.setting.machine }
    requires harts { state.now.harts ≡ harts_of setup.now }
    requires over { is_startup (after state.now.events) ≡ false }
    ensures keeper { IfOk result (λ ready. IsSetUp J.setting state.now.events ready.keeper) }
    ensures runs { IfOk result (λ ready. AreSetOff state.now.events setup.now.fuel started.functions started.entries
        (map (λ r. r.seat) ready.runs.items) (map (λ r. r.hart.hart) ready.runs.items) (map (λ r. r.blocks) ready.runs.items)) }
    ensures ends { IfOk result (λ ready. (ready.ends.items ≡ []) × (harts_of setup.now ≤ vec_capacity ready.ends)) }
    ensures seats { IfOk result (λ ready. (ready.seats.items ≡ []) × (harts_of setup.now ≤ vec_capacity ready.seats)) }
    ensures folders { IfOk result (λ ready. ready.folders ≡ setup.now.folders) }
    ensures entry { IfOk result (λ ready. slice_get started.entries 0 ≡ Some ready.entry) }
{
    served_calls_are_legal();
    events_have_owners();
    let Started {
        installs,
        functions,
        entries,
    } = started;
    let (memory, seats) = starting_memory::<J>(alloc, fresh, state, &installs)?;
    let Seats { keeper, harts } = seats;
    let mut keeper = keeper;
    let entries = entries.as_slice();
    let runs = starting_runs(
        alloc,
        &memory,
        &mut keeper,
        harts,
        entries,
        functions,
        setup.fuel,
    )?;
    let count = state.harts() as usize;
    Ok(Ready {
        memory,
        keeper,
        runs,
        ends: Vec::with_capacity(alloc, count)?,
        seats: Vec::with_capacity(alloc, count)?,
        folders: setup.folders.copy(alloc)?,
        entry: entries[0],
    })
}

/// Runs the harts of a run that is set up, and gives what is left.
fn run_ready<J: RunNaming + Send + Sync, R: Threads + Wait + Sync, L: Library + Send + Drop>(
    rt: &R,
    alloc: Global,
    state: LinkState,
    ready: Ready<J>,
    library: L,
) -> (Ran, L)
    requires journal { J.journal ≡ state.events }
    requires machine { J.setting.machine ≡ machine_of state.harts }
    requires library { (J.setting.files ≡ L.files library) × (J.counts ≡ counts_at L.faults L.misses library) }
    requires folders { J.setting.folders ≡ ready.folders }
    requires keeper { IsSetUp J.setting J.journal ready.keeper }
    requires ends { (ready.ends.items ≡ []) × (state.harts ≤ vec_capacity ready.ends) }
    requires seats { (ready.seats.items ≡ []) × (state.harts ≤ vec_capacity ready.seats) }
    requires set_off { (setup : setup_value) × (started : started_value) × SetsOff J.setting setup J.journal started ready.entry
        (map (λ r. r.seat) ready.runs.items) (map (λ r. r.hart.hart) ready.runs.items) (map (λ r. r.blocks) ready.runs.items) }
    ensures threaded { (setup : setup_value) (started : started_value) → SetsOff J.setting setup J.journal started ready.entry
        (map (λ r. r.seat) ready.runs.items) (map (λ r. r.hart.hart) ready.runs.items) (map (λ r. r.blocks) ready.runs.items)
        → IsThreaded J.setting setup result.0.left result.0.trails }
    ensures shown { ShowInCounts J.setting.folders (drop (length J.journal) result.0.left.journal.events) J.counts (counts_at L.faults L.misses result.1) }
    ensures begins { BeginsWith result.0.left.journal.events J.journal }
    ensures rise { Rise J.counts (counts_at L.faults L.misses result.1) }
    ensures files { L.files result.1 ≡ L.files library }
{
    let Ready {
        memory,
        keeper,
        runs,
        ends,
        seats,
        folders,
        entry,
    } = ready;
    let mut runs = runs;
    counts_show();
    served_calls_are_legal();
    let library = Rising::<J, L>::of(library);
    let keeper = Keeper::new(alloc, state, keeper, folders, library);
    let ends = run_all(rt, &keeper, &memory, runs.as_mut_slice(), ends, entry);
    let (state, keeper, library) = keeper.close();
    let seats = seats_of(seats, runs);
    let ran = left_by(&memory, state, keeper, seats, ends);
    (ran, library.into_library())
}

/// Runs harts on threads to their ends. Answers how each has ended.
fn run_all<J: RunNaming + Send + Sync, R: Threads + Wait + Sync, K: Linker<J> + Sync>(
    rt: &R,
    linker: &K,
    memory: &Memory<J>,
    runs: &mut [HartRun<J>],
    ends: Vec<HartEnd>,
    entry: HartEntry,
) -> Ends
    requires set_off { (setup : setup_value) × (started : started_value) × SetsOff J.setting setup J.journal started entry
        (map (λ r. r.seat) runs.old) (map (λ r. r.hart.hart) runs.old) (map (λ r. r.blocks) runs.old) }
    requires empty { ends.items ≡ [] }
    requires room { length runs.old ≤ vec_capacity ends }
    ensures { (setup : setup_value) (started : started_value) → SetsOff J.setting setup J.journal started entry
        (map (λ r. r.seat) runs.old) (map (λ r. r.hart.hart) runs.old) (map (λ r. r.blocks) runs.old)
        → HaveRun J.setting setup J.journal started result (map (λ r. r.seat) runs.new) }
{
    served_calls_are_legal();
    events_have_owners();
    harts_fit();
    ways_are_whole();
    start_harts(rt, linker, memory, runs);
    let first = run_harts(rt, linker, memory, runs, entry);
    ends_of(ends, first, runs)
}

/// The seats of harts. There is room for them.
fn seats_of<J: RunNaming>(room: Vec<HartSeat<J>>, runs: Vec<HartRun<J>>) -> Vec<HartSeat<J>>
    requires empty { room.items ≡ [] }
    requires room { length runs.items ≤ vec_capacity room }
    ensures { result.items ≡ map (λ r. r.seat) runs.items }
{
    let mut seats = room;
    for run in runs {
        seats.push_reserved(seat_of(run));
    }
    seats
}

/// The seat of a hart.
fn seat_of<J: RunNaming>(run: HartRun<J>) -> HartSeat<J>
    ensures { result ≡ run.seat }
{
    let HartRun {
        seat,
        hart: _,
        blocks: _,
    } = run;
    seat
}

/// What is left of a run whose harts have ended, and whose keeper is closed.
fn left_by<J: RunNaming>(
    memory: &Memory<J>,
    state: LinkState,
    keeper: KeeperSeat<J>,
    seats: Vec<HartSeat<J>>,
    ends: Ends,
) -> Ran
    requires keeps { KeepsState J.setting J.journal state keeper }
    requires rounds { AreRounds J.setting J.journal keeper.events keeper.opens }
    requires some { 0 < J.setting.machine.harts }
    requires have { (setup : setup_value) × (started : started_value) × HaveRun J.setting setup J.journal started ends seats.items }
    ensures threaded { (setup : setup_value) (started : started_value) → Starts J.setting setup J.journal started
        → HaveRun J.setting setup J.journal started ends seats.items → IsThreaded J.setting setup result.left result.trails }
    ensures journal { NobodysCame keeper.events result.left.journal.events }
{
    ways_are_whole();
    trails_follow();
    trails_end();
    fuel_bounds_turns();
    blocks_are_asked_once();
    turns_append();
    turns_are_counted();
    running_is_not_over();
    run_journals_grow();
    let mut state = state;
    let mut keeper = keeper;
    finish(memory, &mut keeper, &mut state, seats);
    Ran {
        left: RunRecord::new(state.into_journal(), ends),
        trails: keeper.into_trails(),
    }
}
