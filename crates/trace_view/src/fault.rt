//! Why a journal isn't shown.

ghost use Rattle.std.specs.Prelude.{◌≡◌};
ghost use Rattle.trace_view.specs.declared.fault.ViewFault.TheVariants.{Memory};

use std::alloc::{AllocError, AllocFailed};

/// Why there is no text.
#[derive(Clone, Copy)]
pub enum ViewFault {
    /// The line of this number, from 1, is no event's.
    NoEvent(usize),
    /// There was no memory.
    Memory,
}

impl From<AllocError> for ViewFault {
    ghost from_gives = { λ _ fault. fault ≡ Memory };

    fn from(_error: AllocError) -> Self {
        ViewFault::Memory
    }
}

impl<T: Drop> From<AllocFailed<T>> for ViewFault {
    ghost from_gives = { λ _ fault. fault ≡ Memory };

    fn from(_error: AllocFailed<T>) -> Self {
        ViewFault::Memory
    }
}
