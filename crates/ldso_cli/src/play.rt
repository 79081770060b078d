//! A run on one thread: what it ends for, and what it leaves.

ghost use Rattle.std.specs.Prelude.{◌≡◌, ◌<◌, ◌≤◌, ◌^◌, Contains, IfOk, IsTrue};
ghost use Rattle.std.specs.String.{string_bytes};
ghost use Rattle.ldso_cli.specs.Outside.{library_at};
ghost use Rattle.ldso_cli.specs.Played.{IsPlayed, LeavesRefusal, LeavesRun, last_line, run_cause};
ghost use Rattle.history_calls.specs.Startup.{harts_of};
ghost use Rattle.world_turns.specs.declared.schedules.schedule.TurnItem.{TurnItem};
ghost use Rattle.world_turns.specs.Run.{have_ended};

use crate::outcome::{Cause, refused_line};
use history_calls::{Setup, StartFault};
use history_event::{Ends, Journal};
use ld_base::DlFault;
use library_source::Library;
use plain_world::{World, played_worlds_are_runs};
use std::alloc::{AllocError, Global};
use trace_text::{RunEnd, RunRecord};
use world_turns::{Turns, counts_show};

/// A run that is over.
#[derive(Drop)]
pub(crate) struct Played {
    /// How it ended, or why it didn't start.
    pub ended: Result<RunEnd, DlFault>,
    pub left: RunRecord,
}

/// Why a command ends whose run ended so.
pub(crate) fn run_cause(ended: Result<RunEnd, DlFault>) -> Cause
    ensures { result ≡ run_cause ended }
{
    match ended {
        Ok(run_end) => Cause::Ran(run_end),
        Err(fault) => Cause::Refused(fault),
    }
}

/// The last line of what is printed of a run that ended so.
///
/// # Errors
///
/// Want of memory.
pub(crate) fn last_line(
    alloc: Global,
    ended: &Result<RunEnd, DlFault>,
) -> Result<String, AllocError>
    ensures { IfOk result (λ line. string_bytes line ≡ last_line ended.now) }
{
    match ended {
        Ok(run_end) => run_end.line(alloc),
        Err(fault) => refused_line(alloc, fault),
    }
}

/// What a run leaves that has ended.
fn over(run: World) -> Played
    requires over { IsTrue (have_ended run.world) }
    requires some { 0 < run.count }
    ensures { LeavesRun run.world result.ended result.left }
{
    let _ = run.count();
    let left = run.into_record();
    let run_end = RunEnd::of(left.ends.as_slice());
    Played {
        ended: Ok(run_end),
        left,
    }
}

/// What a run leaves that doesn't start.
pub(crate) fn not_started(alloc: Global, fault: DlFault, journal: Journal) -> Played
    ensures { LeavesRefusal fault journal.events result.ended result.left }
{
    Played {
        ended: Err(fault),
        left: RunRecord::new(journal, Ends::new(alloc)),
    }
}

/// Starts a run, and takes it to its end by these items.
///
/// # Errors
///
/// Want of memory.
pub(crate) fn play<L: Library>(
    alloc: Global,
    setup: &Setup,
    items: &Turns,
    library: &mut L,
) -> Result<Played, AllocError>
    requires few { harts_of setup.now < 2 ^ 32 }
    requires fuel { setup.now.fuel ≤ 2 ^ 32 }
    requires within { (item : TurnItem) → Contains items.now item → item.hart < harts_of setup.now }
    ensures plays { IfOk result (λ played. IsPlayed setup.now items.now (library_at L.files L.faults L.misses library.old)
        (library_at L.files L.faults L.misses library.new) played.ended played.left) }
    ensures files { L.files library.new ≡ L.files library.old }
    ensures faults { L.faults library.old ≤ L.faults library.new }
    ensures misses { L.misses library.old ≤ L.misses library.new }
{
    played_worlds_are_runs();
    counts_show();
    match World::start(alloc, setup, library) {
        Ok(mut run) => {
            run.run(alloc, items, library);
            Ok(over(run))
        }
        Err(StartFault::Refused(fault, journal)) => Ok(not_started(alloc, fault, journal)),
        Err(StartFault::Memory) => Err(AllocError),
    }
}
