//! What can be copied.

ghost use Rattle.std.specs.Prelude.{◌≡◌, IfOk};

use std::alloc::{AllocError, Global};

/// A record that can be had once more, in memory of its own but for lists that no longer change.
pub trait Copied: Drop {
    /// The same value once more.
    ///
    /// # Errors
    ///
    /// Want of memory.
    fn copy(&self, alloc: Global) -> Result<Self, AllocError>
        ensures { IfOk result (λ copy. copy ≡ self.now) };
}
