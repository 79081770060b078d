//! The files of a set.

ghost use Rattle.std.specs.Prelude.{IfOk};
ghost use Rattle.lib_gen.specs.GeneratedDenotes.Accepted.{IsUnrefused};
ghost use Rattle.lib_gen.specs.Set.{AreSetOf, IsObjectOf};

use crate::generated_denotes::sources_denote;
use crate::generated_sources::sources;
use asm_object::{AsmFault, assemble};
use ld_base::{Bytes, File, Files};
use std::alloc::{AllocError, Global};

/// The object of a source that isn't refused, at its path.
fn object_of(alloc: Global, source: File) -> Result<File, AllocError>
    requires { IsUnrefused source.bytes }
    ensures { IfOk result (IsObjectOf source) }
{
    match assemble(alloc, source.bytes.as_slice()) {
        Ok(bytes) => Ok(File {
            path: source.path,
            bytes: Bytes::from(bytes),
        }),
        Err(AsmFault::At(_, _)) => unreachable!(),
        Err(AsmFault::Memory) => Err(AllocError),
    }
}

/// The files of the set that a number makes: the object of each source, at its path.
///
/// # Errors
///
/// Want of memory.
pub fn library_set(alloc: Global, number: u32) -> Result<Files, AllocError>
    ensures { IfOk result (AreSetOf number) }
{
    sources_denote();
    let mut files = Files::new(alloc);
    for source in sources(alloc, number)?.into_vec() {
        files.push(object_of(alloc, source)?)?;
    }
    Ok(files)
}
