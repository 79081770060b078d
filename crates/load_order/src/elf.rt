//! The format of the files that are loaded.

use elf_object::read_object;
use ld_base::{HashTable, Object, ReadFault, SharedBytes};
use load_walk::Format;
use std::alloc::Global;

/// ELF64 objects for RISC-V.
#[derive(Clone, Copy, Debug)]
pub struct Elf;

impl Format for Elf {
    ghost use Rattle.elf_object.specs.Verdict.{object_verdict};

    ghost verdict = { λ _ bytes program. object_verdict bytes program };

    fn read(
        &self,
        alloc: Global,
        file: &SharedBytes,
        program: bool,
    ) -> Result<(Object, HashTable), ReadFault> {
        read_object(alloc, file, program)
    }
}
