//! Why a line can't be followed.

use std::alloc::{AllocError, AllocFailed};

/// Why a line can't be followed.
#[derive(Clone, Copy, Debug, PartialEq, Eq)]
pub enum Fault {
    /// It isn't written as a line of a test is.
    Unclear,
    /// There wasn't enough memory.
    Memory,
}

impl From<AllocError> for Fault {
    fn from(_error: AllocError) -> Self {
        Fault::Memory
    }
}

impl<T: Drop> From<AllocFailed<T>> for Fault {
    fn from(_failed: AllocFailed<T>) -> Self {
        Fault::Memory
    }
}
