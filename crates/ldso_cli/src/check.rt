//! `check`: whether a trace is legal.

ghost use Rattle.std.specs.Prelude.{◌≡◌, ◌≤◌, IfOk, None, Some};
ghost use Rattle.ldso_cli.specs.Check.{TraceComes};
ghost use Rattle.ldso_cli.specs.Checking.{IsJudgement};
ghost use Rattle.ldso_cli.specs.Command.{EndsBare, WordsAnswer};
ghost use Rattle.ldso_cli.specs.End.{bare};
ghost use Rattle.ldso_cli.specs.Outside.{library_at};
ghost use Rattle.ldso_cli.specs.Status.{legal_text, trace_refused_text, trace_word};
ghost use Rattle.ldso_cli.specs.declared.outcome.Cause.TheVariants.{Done, TraceRefused};

use crate::answer::{Answer, done, refused};
use crate::outcome::{Cause, End};
use cli_words::{Check, Command};
use ld_base::{Bytes, DlFault, Names};
use library_source::{Library, ReadError};
use std::alloc::{AllocError, Global};
use trace_check::{CheckFault, TraceCause, check_trace};

/// How many bytes a trace has at most: 8 MiB.
const MOST_BYTES: usize = 1 << 23;

/// Reads the trace at a path, and judges it. The library is handed back.
///
/// # Errors
///
/// Want of memory.
pub(crate) fn check<L: Library>(
    alloc: Global,
    command: Check,
    library: L,
) -> (Result<Answer, AllocError>, L)
    ensures answers { IfOk result.0 (λ answer. WordsAnswer (Some (Command.Check command)) (library_at L.files L.faults L.misses library)
        (library_at L.files L.faults L.misses result.1) answer.end answer.text) }

    // What the library is left as.
    ensures files { L.files result.1 ≡ L.files library }
    ensures faults { L.faults library ≤ L.faults result.1 }
    ensures misses { L.misses library ≤ L.misses result.1 }
{
    let Check {
        folders,
        trace: path,
    } = command;
    let mut library = library;
    match library.read(path.as_bytes()) {
        Ok(trace) => of_trace(alloc, &folders, trace.as_slice(), library),
        Err(ReadError::Missing) => (refused(alloc, DlFault::MissingLibrary(path)), library),
        Err(ReadError::Failed) => (refused(alloc, DlFault::ReadFault(path)), library),
        Err(ReadError::Memory) => (Err(AllocError), library),
    }
}

/// The answer of a trace.
fn of_trace<L: Library>(
    alloc: Global,
    folders: &Names,
    trace: &[u8],
    library: L,
) -> (Result<Answer, AllocError>, L)
    ensures comes { IfOk result.0 (λ answer. EndsBare (λ cause. TraceComes folders.now (library_at L.files L.faults L.misses library)
        (library_at L.files L.faults L.misses result.1) trace.now cause answer.text) answer.end) }
    ensures files { L.files result.1 ≡ L.files library }
    ensures faults { L.faults library ≤ L.faults result.1 }
    ensures misses { L.misses library ≤ L.misses result.1 }
{
    if trace.len() > MOST_BYTES {
        return (trace_refused(alloc, 0, None), library);
    }
    let (judged, library) = check_trace(alloc, trace, folders, library);
    (judgement(alloc, judged), library)
}

/// The answer of a trace that is judged so.
fn judgement(alloc: Global, judged: Result<u64, CheckFault>) -> Result<Answer, AllocError>
    ensures { IfOk result (λ answer. IsJudgement judged answer.end answer.text) }
{
    match judged {
        Ok(count) => legal(alloc, count),
        Err(CheckFault::At(line, cause)) => trace_refused(alloc, line, Some(cause)),
        Err(CheckFault::ReadFault(path)) => refused(alloc, DlFault::ReadFault(path)),
        Err(CheckFault::Memory) => Err(AllocError),
    }
}

/// The answer of a legal trace of so many events.
#[tactic(auto, unfolding(crate::specs::Status::legal_text))]
fn legal(alloc: Global, count: u64) -> Result<Answer, AllocError>
    ensures end { IfOk result (λ answer. answer.end ≡ bare Done) }
    ensures text { IfOk result (λ answer. answer.text ≡ legal_text count) }
{
    let text = format!(in alloc; "end 0 legal {count}\n")?;
    Ok(done(text))
}

/// The word of a cause for which a trace is refused; without one it is too long.
fn trace_word(cause: Option<TraceCause>) -> &'static str
    ensures { result.now ≡ trace_word cause }
{
    match cause {
        Some(TraceCause::NotALine) => "not-a-line",
        Some(TraceCause::Illegal) => "illegal",
        Some(TraceCause::NotWhole) => "not-whole",
        Some(TraceCause::NoEnd) => "no-end",
        None => "too-long",
    }
}

/// The answer of a trace that is refused.
#[tactic(auto, unfolding(crate::specs::Status::trace_refused_text))]
fn trace_refused(alloc: Global, line: u64, cause: Option<TraceCause>) -> Result<Answer, AllocError>
    ensures end { IfOk result (λ answer. answer.end ≡ bare (TraceRefused line cause)) }
    ensures text { IfOk result (λ answer. answer.text ≡ trace_refused_text line cause) }
{
    let word = trace_word(cause);
    let text = format!(in alloc; "end 117 trace {line} {word}\n")?;
    Ok(Answer {
        end: End::bare(Cause::TraceRefused(line, cause)),
        text: Bytes::from(text.into_bytes()),
    })
}
