//! `run`: a run on threads.

ghost use Rattle.std.specs.Prelude.{◌≡◌, ◌≤◌, ◌^◌, ◌++◌, All, IfOk};
ghost use Rattle.history_calls.specs.Startup.{harts_of};
ghost use Rattle.ldso_cli.specs.End.{end_with_trails};
ghost use Rattle.ldso_cli.specs.Outside.{library_at};
ghost use Rattle.ldso_cli.specs.Played.{last_line, run_cause};
ghost use Rattle.ldso_cli.specs.Threads.{ComesOnThreads, EndsOnThreads, HasEnds, RunComes, RunLeaves, printed_of};
ghost use Rattle.trace_text.specs.Lines.{IsSayable};

use crate::answer::Answer;
use crate::outcome::End;
use crate::play::{Played, last_line, not_started, run_cause};
use cli_words::Run;
use history_calls::{Setup, StartFault, served_calls_are_legal};
use history_event::Event;
use ld_base::Bytes;
use library_source::Library;
use std::alloc::{AllocError, Global};
use std::sync::Wait;
use std::thread::Threads;
use trace_text::{RunEnd, events_are_sayable, guest_text, journal_text};
use word_memory::Trails;
use world_threads::{Ran, run_program};

/// A run on threads that is over, with what each hart did, if it started.
#[derive(Drop)]
struct Threaded {
    played: Played,
    trails: Option<Trails>,
}

/// What a run leaves that has ended.
fn over(ran: Ran) -> Threaded
    requires { HasEnds ran }
    ensures { EndsOnThreads ran result.played.ended result.played.left result.trails }
{
    let Ran { left, trails } = ran;
    let run_end = RunEnd::of(left.ends.as_slice());
    Threaded {
        played: Played {
            ended: Ok(run_end),
            left,
        },
        trails: Some(trails),
    }
}

/// What a run leaves that was to start.
///
/// # Errors
///
/// Want of memory.
fn left_of(alloc: Global, ran: Result<Ran, StartFault>) -> Result<Threaded, AllocError>
    requires { IfOk ran HasEnds }
    ensures { IfOk result (λ threaded. RunLeaves ran threaded.played.ended threaded.played.left threaded.trails) }
{
    match ran {
        Ok(ran) => Ok(over(ran)),
        Err(StartFault::Refused(fault, journal)) => Ok(Threaded {
            played: not_started(alloc, fault, journal),
            trails: None,
        }),
        Err(StartFault::Memory) => Err(AllocError),
    }
}

/// What is printed of a run: its journal, or what the program wrote, and the last line.
///
/// # Errors
///
/// Want of memory.
fn run_text(
    alloc: Global,
    trace: bool,
    events: &[Event],
    last_line: &str,
) -> Result<Bytes, AllocError>
    requires { All IsSayable events.now }
    ensures { IfOk result (λ text. text ≡ printed_of trace events.now ++ last_line.now) }
{
    if trace {
        journal_text(alloc, events, last_line)
    } else {
        guest_text(alloc, events, last_line)
    }
}

/// The answer of a run that is over.
fn told(alloc: Global, trace: bool, threaded: Threaded) -> Result<Answer, AllocError>
    requires { All IsSayable threaded.played.left.journal.events }
    ensures end { IfOk result (λ answer. answer.end ≡ end_with_trails (run_cause threaded.played.ended) threaded.played.left threaded.trails) }
    ensures text { IfOk result (λ answer. answer.text ≡ printed_of trace threaded.played.left.journal.events ++ last_line threaded.played.ended) }
{
    let Threaded { played, trails } = threaded;
    let Played { ended, left } = played;
    let line = last_line(alloc, &ended)?;
    let text = run_text(alloc, trace, left.journal.as_slice(), line.as_str())?;
    let end = End {
        cause: run_cause(ended),
        kept: Some(left),
        trails,
    };
    Ok(Answer { end, text })
}

/// Starts a run on threads, and takes it to its end. The library is handed back.
///
/// # Errors
///
/// Want of memory.
fn run_setup<R: Threads + Wait + Sync, L: Library + Send + Drop>(
    rt: &R,
    alloc: Global,
    setup: &Setup,
    library: L,
) -> (Result<Threaded, AllocError>, L)
    requires few { harts_of setup.now ≤ 16 }
    requires fuel { setup.now.fuel ≤ 2 ^ 32 }
    ensures comes { IfOk result.0 (λ threaded. ComesOnThreads setup.now (library_at L.files L.faults L.misses library)
        (library_at L.files L.faults L.misses result.1) threaded.played.ended threaded.played.left threaded.trails) }
    ensures files { L.files result.1 ≡ L.files library }
    ensures faults { L.faults library ≤ L.faults result.1 }
    ensures misses { L.misses library ≤ L.misses result.1 }
{
    let (ran, library) = run_program(rt, alloc, setup, library);
    (left_of(alloc, ran), library)
}

/// Runs a program on threads, and gives its journal, or what it wrote. The library is handed back.
///
/// # Errors
///
/// Want of memory.
pub(crate) fn run<R: Threads + Wait + Sync, L: Library + Send + Drop>(
    rt: &R,
    alloc: Global,
    command: &Run,
    library: L,
) -> (Result<Answer, AllocError>, L)
    requires few { harts_of command.now.setup ≤ 16 }
    requires fuel { command.now.setup.fuel ≤ 2 ^ 32 }
    ensures comes { IfOk result.0 (λ answer. RunComes command.now (library_at L.files L.faults L.misses library)
        (library_at L.files L.faults L.misses result.1) answer.end answer.text) }

    // What the library is left as.
    ensures files { L.files result.1 ≡ L.files library }
    ensures faults { L.faults library ≤ L.faults result.1 }
    ensures misses { L.misses library ≤ L.misses result.1 }
{
    served_calls_are_legal();
    events_are_sayable();
    let (threaded, library) = run_setup(rt, alloc, &command.setup, library);
    match threaded {
        Ok(threaded) => (told(alloc, command.trace, threaded), library),
        Err(AllocError) => (Err(AllocError), library),
    }
}
