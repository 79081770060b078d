//! What a trace is refused for.

ghost use Rattle.std.specs.Prelude.{◌≡◌};
ghost use Rattle.trace_check.specs.Rows.{fault_of};
ghost use Rattle.trace_check.specs.declared.verdict.CheckFault.TheVariants.{Memory};

use ld_base::Name;
use std::alloc::{AllocError, AllocFailed};
use trace_opens::Doubt;

/// Why a line is refused.
#[derive(Clone, Copy, PartialEq, Eq, Debug)]
pub enum TraceCause {
    /// No event has this line.
    NotALine,
    /// No event that has this line may come after those of the lines before it.
    Illegal,
    /// A history that ends so isn't whole.
    NotWhole,
    /// The text ends before a last line.
    NoEnd,
}

/// Why a trace isn't judged legal.
#[derive(Debug, Drop)]
pub enum CheckFault {
    /// The line of this number is refused. Lines count from 1.
    At(u64, TraceCause),
    /// The library failed to read the file at the path.
    ReadFault(Name),
    /// There wasn't enough memory.
    Memory,
}

impl From<AllocError> for CheckFault {
    ghost from_gives = { λ _ fault. fault ≡ Memory };

    fn from(_error: AllocError) -> Self {
        CheckFault::Memory
    }
}

impl From<Doubt> for CheckFault {
    ghost from_gives = { λ doubt fault. fault ≡ fault_of doubt };

    fn from(doubt: Doubt) -> Self {
        match doubt {
            Doubt::ReadFault(path) => CheckFault::ReadFault(path),
            Doubt::Memory => CheckFault::Memory,
        }
    }
}
