//! What tells whether bytes are an object.

ghost use Rattle.std.specs.Prelude.{ℕ, Bool, List, Result};
ghost use Rattle.ld_base.specs.declared.fault.NotAccepted.{NotAccepted};
ghost use Rattle.ld_base.specs.declared.object.Object.{Object};
ghost use Rattle.ld_base.specs.declared.parts.HashTable.{HashTable};
ghost use Rattle.load_walk.specs.Files.{Gives};

use ld_base::{HashTable, Object, ReadFault, SharedBytes};
use std::alloc::Global;

/// A format of object files.
pub trait Format {
    /// The object that bytes are, with its hash tables, as the program's or as another object's;
    /// or why they aren't one.
    ghost verdict: { Self → List ℕ → Bool → Result (Object × HashTable) NotAccepted };

    /// Reads an object, which may keep the file's memory, or says which rule its bytes break.
    ///
    /// # Errors
    ///
    /// The rule that is broken, with its number, or want of memory.
    fn read(
        &self,
        alloc: Global,
        file: &SharedBytes,
        program: bool,
    ) -> Result<(Object, HashTable), ReadFault>
        ensures { Gives result (verdict self.now file.now program) };
}
