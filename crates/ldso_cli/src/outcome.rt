//! How the command ends.

ghost use Rattle.std.specs.Prelude.{◌≡◌, IfOk};
ghost use Rattle.std.specs.String.{string_bytes};
ghost use Rattle.ldso_cli.specs.End.{bare, end_of};
ghost use Rattle.ldso_cli.specs.Status.{refused_text, status_of, status_of_cause, status_of_fault};

use ld_base::{AsmCause, DlFault};
use std::alloc::{AllocError, Global};
use trace_check::TraceCause;
use trace_text::{RunEnd, RunRecord};
use word_memory::Trails;

/// Why the command ends.
#[derive(Drop)]
pub enum Cause {
    /// It did what it was asked.
    Done,
    /// The run is over, and ended so.
    Ran(RunEnd),
    /// The file, or what it needs, is refused.
    Refused(DlFault),
    /// The source is refused, at this line and for this cause.
    AsmRefused(u64, AsmCause),
    /// The trace is refused, at this line and for this cause; or, without one, because it is too long.
    TraceRefused(u64, Option<TraceCause>),
    /// The words are no command.
    Usage,
    /// The text couldn't be written.
    WriteFault,
    /// There wasn't enough memory.
    Memory,
}

/// How a command ended: why, and what it keeps.
#[derive(Drop)]
pub struct End {
    pub cause: Cause,
    /// The record of the run, of a command that runs a program. Where startup was refused its journal is
    /// startup's, and it has no ends. Where there wasn't enough memory it may be there or not.
    pub kept: Option<RunRecord>,
    /// What each hart did, of a run on threads that started: the harts' last views, with their trails.
    pub trails: Option<Trails>,
}

/// How the command ended: its status, and its end.
#[derive(Drop)]
pub struct Outcome {
    pub status: u8,
    pub cause: Cause,
    /// As in [`End`].
    pub kept: Option<RunRecord>,
    /// As in [`End`].
    pub trails: Option<Trails>,
}

/// The status with which a refusal ends the command.
pub(crate) fn status_of_fault(fault: &DlFault) -> u8
    ensures { result ≡ status_of_fault fault.now }
{
    match fault {
        DlFault::ReadFault(_) => 121,
        DlFault::NotAccepted(_, _) => 126,
        DlFault::MissingLibrary(_)
        | DlFault::MissingVersion(_, _, _)
        | DlFault::MissingSymbol(_, _, _) => 127,
        DlFault::NotCode(_, _)
        | DlFault::NeedsStaticTls(_)
        | DlFault::AddressSpaceFull(_)
        | DlFault::NamespacesFull
        | DlFault::BadHandle(_)
        | DlFault::BadFlags(_)
        | DlFault::ClosingHere(_)
        | DlFault::NameTooLong
        | DlFault::BadNamespace(_) => 118,
    }
}

/// The last line where a refusal ends the command.
///
/// # Errors
///
/// Want of memory.
#[tactic(auto, unfolding(crate::specs::Status::refused_text))]
pub(crate) fn refused_line(alloc: Global, fault: &DlFault) -> Result<String, AllocError>
    ensures { IfOk result (λ line. string_bytes line ≡ refused_text fault.now) }
{
    let status = status_of_fault(fault);
    let line = format!(in alloc; "end {status} {fault}\n")?;
    Ok(line)
}

fn status_of_cause(cause: &Cause) -> u8
    ensures { result ≡ status_of_cause cause.now }
{
    match cause {
        Cause::Done => 0,
        Cause::Ran(run_end) => run_end.status(),
        Cause::Refused(fault) => status_of_fault(fault),
        Cause::AsmRefused(_, _) => 119,
        Cause::TraceRefused(_, _) => 117,
        Cause::Usage => 120,
        Cause::WriteFault => 122,
        Cause::Memory => 123,
    }
}

impl End {
    ghost use Rattle.ldso_cli.specs.Status.{status_of};

    /// The end of a command that runs no program: nothing is kept.
    pub fn bare(cause: Cause) -> Self
        ensures { result ≡ bare cause }
    {
        End {
            cause,
            kept: None,
            trails: None,
        }
    }

    /// The same end for another cause: what is kept stays.
    pub(crate) fn with_cause(self, cause: Cause) -> Self
        ensures { result ≡ record self { cause = cause } }
    {
        End { cause, ..self }
    }

    /// The status with which this ends the command.
    pub fn status(&self) -> u8
        ensures { result ≡ status_of self.now }
    {
        status_of_cause(&self.cause)
    }

    /// The end with its status.
    pub(crate) fn into_outcome(self) -> Outcome
        ensures end { end_of result ≡ self }
        ensures status { result.status ≡ status_of self }
    {
        let status = self.status();
        let End {
            cause,
            kept,
            trails,
        } = self;
        Outcome {
            status,
            cause,
            kept,
            trails,
        }
    }
}
