//! Why a schedule isn't read.

ghost use Rattle.std.specs.Prelude.{◌≡◌};
ghost use Rattle.cli_read.specs.declared.schedule_read.fault.TurnsFault.TheVariants.{Memory};

use std::alloc::{AllocError, AllocFailed};
use thiserror::Error;

/// Why there are no turns.
#[derive(Clone, Copy, Debug, PartialEq, Eq, Error)]
pub enum TurnsFault {
    /// The text is no schedule of so many harts.
    #[error("not a schedule")]
    NotTurns,
    /// There was no memory.
    #[error("no memory")]
    Memory,
}

impl From<AllocError> for TurnsFault {
    ghost from_gives = { λ _ fault. fault ≡ Memory };

    fn from(_error: AllocError) -> Self {
        TurnsFault::Memory
    }
}

impl<T: Drop> From<AllocFailed<T>> for TurnsFault {
    ghost from_gives = { λ _ fault. fault ≡ Memory };

    fn from(_error: AllocFailed<T>) -> Self {
        TurnsFault::Memory
    }
}
