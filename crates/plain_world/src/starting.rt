//! How a run starts.

ghost use Rattle.std.specs.Prelude.{◌≡◌, ◌<◌, ◌≤◌, ◌^◌, false, Option, Some, IfErr, IfOk, List, map};
ghost use Rattle.std.specs.List.{slice_get};
ghost use Rattle.history_calls.specs.CallLaws.Counts.{ArePathsAtStart, ShowsInCounts};
ghost use Rattle.hart_moves.specs.Starting.{starting_hart, starting_harts};
ghost use Rattle.ld_base.specs.declared.linking.File.{File};
ghost use Rattle.history_state.specs.After.{after};
ghost use Rattle.history_state.specs.Objects.{is_startup};
ghost use Rattle.history_state.specs.Setting.{Setting};
ghost use Rattle.history_calls.specs.declared.link_served.startup.Setup.{Setup as setup_value};
ghost use Rattle.history_calls.specs.Startup.{Starts, harts_of};
ghost use Rattle.link_startup.specs.Startup.{IsNotStarted, StartsWhereItCan, startup_refusal};
ghost use Rattle.link_open_plan.specs.Startup.{run_of};
ghost use Rattle.world_answers.specs.ReturnsPart.Settling.{harts_in};
ghost use Rattle.world_answers.specs.GuestsPart.Counting.{counts_at};
ghost use Rattle.plain_world.specs.Started.{BringsFirst, IsFirstMemory, StartsAt, start_events};
ghost use Rattle.world_turns.specs.Counts.{ShowInCounts};

use crate::World;
use hart_seat::{LinkedHart, Purpose};
use history_calls::{Installs, Setup, StartFault, Started};
use history_event::{Functions, HartEntry};
use library_source::Library;
use link_lists::Copied;
use link_startup::startup;
use link_state::LinkState;
use std::alloc::{AllocError, Global};
use world_answers::runs_stay;
use world_memory::{MemoryChange, PlainMemory};

impl World {
    /// Starts a run up to its first constructor: opens its program in a new state, puts what that brings into
    /// guest memory, and sets the harts up.
    ///
    /// Where the library tells its files, nothing but a failed read or want of memory stops a run that can start
    /// over them.
    ///
    /// # Errors
    ///
    /// The first refusal, with the events up to it, or want of memory. The library's counts show that a read
    /// failed, and that paths were missed.
    pub fn start<L: Library>(
        alloc: Global,
        setup: &Setup,
        library: &mut L,
    ) -> Result<Self, StartFault>
        requires few { harts_of setup.now < 2 ^ 32 }
        requires fuel { setup.now.fuel ≤ 2 ^ 32 }
        ensures starts { IfOk result (λ run. StartsAt (run_of setup.now (L.files library.old)) setup.now run.world run.entry) }
        ensures count { IfOk result (λ run. run.count ≡ harts_of setup.now) }
        ensures folders { IfOk result (λ run. run.folders ≡ setup.now.folders) }
        ensures begun { IfOk result (λ run. run.begun ≡ false) }
        ensures refused { IfErr result (IsNotStarted (run_of setup.now (L.files library.old)) setup.now) }
        ensures whole { StartsWhereItCan setup.now (L.files library.old) (L.faults library.old) (L.faults library.new) result }
        ensures counts { ShowsInCounts (ArePathsAtStart setup.now.folders setup.now.program) (startup_refusal result)
            (L.faults library.old) (L.faults library.new) (L.misses library.old) (L.misses library.new) }
        ensures shows { ShowInCounts setup.now.folders (start_events result)
            (counts_at L.faults L.misses library.old) (counts_at L.faults L.misses library.new) }
        ensures files { L.files library.new ≡ L.files library.old }
        ensures faults { L.faults library.old ≤ L.faults library.new }
        ensures misses { L.misses library.old ≤ L.misses library.new }
    {
        let (state, started) = startup(alloc, setup, library)?;
        let Ok(run) = set_up(alloc, state, started, setup) else {
            return Err(StartFault::Memory);
        };
        Ok(run)
    }
}

/// The run whose startup came to this: its guest memory, its harts, and room for how each of them ends.
///
/// # Errors
///
/// Want of memory.
fn set_up(
    alloc: Global,
    state: LinkState,
    started: Started,
    setup: &Setup,
) -> Result<World, AllocError>
    requires starts { (files : Option (List File)) × Starts (run_of setup.now files) setup.now state.events started }
    requires harts { state.harts ≡ harts_of setup.now }
    requires over { is_startup (after state.events) ≡ false }
    requires fuel { setup.now.fuel ≤ 2 ^ 32 }
    ensures starts { IfOk result (λ run. (files : Option (List File)) → Starts (run_of setup.now files) setup.now state.events started
        → StartsAt (run_of setup.now files) setup.now run.world run.entry) }
    ensures count { IfOk result (λ run. run.count ≡ harts_of setup.now) }
    ensures folders { IfOk result (λ run. run.folders ≡ setup.now.folders) }
    ensures begun { IfOk result (λ run. run.begun ≡ false) }
{
    runs_stay();
    let (memory, harts, entry) = parts_of(alloc, &state, started, setup.fuel)?;
    let ends = Vec::with_capacity(alloc, state.harts() as usize)?;
    let folders = setup.folders.copy(alloc)?;
    Ok(World {
        state,
        memory,
        harts,
        ends,
        folders,
        entry,
        begun: false,
    })
}

/// Guest memory and the harts behind startup, and with which registers the first hart starts.
///
/// # Errors
///
/// Want of memory.
fn parts_of(
    alloc: Global,
    state: &LinkState,
    started: Started,
    fuel: u64,
) -> Result<(PlainMemory, Vec<LinkedHart>, HartEntry), AllocError>
    requires starts { (w : Setting) × (setup : setup_value) × Starts w setup state.now.events started }
    requires fuel { fuel ≤ 2 ^ 32 }
    ensures memory { IfOk result (λ parts. IsFirstMemory state.now.events parts.0) }
    ensures harts { IfOk result (λ parts. harts_in parts.1.items ≡ starting_harts fuel started.functions started.entries) }
    ensures entry { IfOk result (λ parts. slice_get started.entries 0 ≡ Some parts.2) }
{
    let Started {
        installs,
        functions,
        entries,
    } = started;
    let memory = starting_memory(alloc, state, installs)?;
    let harts = starting_harts(alloc, fuel, functions, entries.as_slice())?;
    Ok((memory, harts, entries.as_slice()[0]))
}

/// Guest memory with what startup brings.
///
/// # Errors
///
/// Want of memory.
fn starting_memory(
    alloc: Global,
    state: &LinkState,
    installs: Installs,
) -> Result<PlainMemory, AllocError>
    requires { BringsFirst state.now.events installs }
    ensures { IfOk result (IsFirstMemory state.now.events) }
{
    let mut memory = PlainMemory::new(alloc)?;
    memory.apply(&MemoryChange::Installs(installs), state.made_block());
    Ok(memory)
}

/// The harts that start with these registers. The first one runs functions before.
///
/// # Errors
///
/// Want of memory.
fn starting_harts(
    alloc: Global,
    fuel: u64,
    functions: Functions,
    entries: &[HartEntry],
) -> Result<Vec<LinkedHart>, AllocError>
    requires { fuel ≤ 2 ^ 32 }
    ensures { IfOk result (λ harts. harts_in harts.items ≡ starting_harts fuel functions entries.now) }
{
    let mut harts = harts_at(alloc, fuel, entries)?;
    if let Some(first) = harts.first_mut() {
        first.make_room()?;
        first.run(Purpose::Startup(entries[0]), functions, 0);
    }
    Ok(harts)
}

/// The harts that start with these registers, and run nothing before.
///
/// # Errors
///
/// Want of memory.
fn harts_at(alloc: Global, fuel: u64, entries: &[HartEntry]) -> Result<Vec<LinkedHart>, AllocError>
    requires { fuel ≤ 2 ^ 32 }
    ensures { IfOk result (λ harts. harts_in harts.items ≡ map (starting_hart fuel) entries.now) }
{
    let mut harts = Vec::new(alloc);
    for entry in entries {
        harts.push(LinkedHart::new(alloc, fuel, *entry))?;
    }
    Ok(harts)
}
