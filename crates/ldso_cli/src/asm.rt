//! `asm`: the object that a source denotes.

ghost use Rattle.std.specs.Prelude.{◌≡◌, ◌≤◌, IfOk, Some};
ghost use Rattle.ldso_cli.specs.Asm.{SourceComes};
ghost use Rattle.ldso_cli.specs.Command.{WordsAnswer, EndsBare};
ghost use Rattle.ldso_cli.specs.Outside.{library_at};

use crate::answer::{Answer, asm_refused, assembled, refused};
use asm_object::{AsmFault, assemble};
use cli_words::Command;
use ld_base::{DlFault, Name};
use library_source::{Library, ReadError};
use std::alloc::{AllocError, Global};

/// The answer of a source.
fn of_source(alloc: Global, source: &[u8]) -> Result<Answer, AllocError>
    ensures { IfOk result (λ answer. EndsBare (λ cause. SourceComes source.now cause answer.text) answer.end) }
{
    match assemble(alloc, source) {
        Ok(bytes) => Ok(assembled(bytes)),
        Err(AsmFault::At(line, cause)) => asm_refused(alloc, line, cause),
        Err(AsmFault::Memory) => Err(AllocError),
    }
}

/// Reads the source at a path, and gives the bytes of the object that it denotes, or why it is refused.
pub(crate) fn asm<L: Library>(
    alloc: Global,
    path: Name,
    library: &mut L,
) -> Result<Answer, AllocError>
    ensures answers { IfOk result (λ answer. WordsAnswer (Some (Command.Assemble path)) (library_at L.files L.faults L.misses library.old)
        (library_at L.files L.faults L.misses library.new) answer.end answer.text) }

    // What the library is left as.
    ensures files { L.files library.new ≡ L.files library.old }
    ensures faults { L.faults library.old ≤ L.faults library.new }
    ensures misses { L.misses library.old ≤ L.misses library.new }
{
    match library.read(path.as_bytes()) {
        Ok(bytes) => of_source(alloc, bytes.as_slice()),
        Err(ReadError::Missing) => refused(alloc, DlFault::MissingLibrary(path)),
        Err(ReadError::Failed) => refused(alloc, DlFault::ReadFault(path)),
        Err(ReadError::Memory) => Err(AllocError),
    }
}
