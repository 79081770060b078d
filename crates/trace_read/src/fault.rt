//! Why a line isn't read.

ghost use Rattle.std.specs.Prelude.{◌≡◌};
ghost use Rattle.trace_read.specs.declared.fault.TraceFault.TheVariants.{Memory};

use std::alloc::{AllocError, AllocFailed};

/// Why there is no event.
#[derive(Clone, Copy)]
pub enum TraceFault {
    /// No event has this line.
    NotALine,
    /// There was no memory.
    Memory,
}

impl From<AllocError> for TraceFault {
    ghost from_gives = { λ _ fault. fault ≡ Memory };

    fn from(_error: AllocError) -> Self {
        TraceFault::Memory
    }
}

impl<T: Drop> From<AllocFailed<T>> for TraceFault {
    ghost from_gives = { λ _ fault. fault ≡ Memory };

    fn from(_error: AllocFailed<T>) -> Self {
        TraceFault::Memory
    }
}
