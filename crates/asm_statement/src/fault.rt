//! Why a source is refused.

ghost use Rattle.std.specs.Prelude.{◌≡◌};
ghost use Rattle.asm_statement.specs.declared.fault.AsmFault.TheVariants.{Memory};

use ld_base::AsmCause;
use std::alloc::{AllocError, AllocFailed};

/// Why there is no object.
#[derive(Clone, Copy)]
pub enum AsmFault {
    /// A line is refused. Lines count from 1; line 0 is the source as a whole.
    At(u64, AsmCause),
    /// There was no memory.
    Memory,
}

impl From<AllocError> for AsmFault {
    ghost from_gives = { λ _ fault. fault ≡ Memory };

    fn from(_error: AllocError) -> Self {
        AsmFault::Memory
    }
}

impl<T: Drop> From<AllocFailed<T>> for AsmFault {
    ghost from_gives = { λ _ fault. fault ≡ Memory };

    fn from(_error: AllocFailed<T>) -> Self {
        AsmFault::Memory
    }
}
