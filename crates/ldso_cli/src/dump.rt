//! `dump`: what the object in a file holds.

ghost use Rattle.std.specs.Prelude.{◌≡◌, ◌≤◌, IfOk, Some, true};
ghost use Rattle.ldso_cli.specs.Command.{WordsAnswer};
ghost use Rattle.ldso_cli.specs.Dump.{dump_cause, program_read, reading_text};
ghost use Rattle.ldso_cli.specs.End.{bare};
ghost use Rattle.ldso_cli.specs.Outside.{library_at};

use crate::answer::{Answer, done, refused};
use cli_text::dump_text;
use cli_words::Command;
use elf_object::read_object;
use ld_base::{DlFault, Name, ReadFault, SharedBytes};
use library_source::{Library, ReadError};
use std::alloc::{AllocError, Global};

/// The answer of a file with these bytes, which are read as a program's.
fn of_bytes(alloc: Global, path: Name, bytes: Vec<u8>) -> Result<Answer, AllocError>
    ensures end { IfOk result (λ answer. answer.end ≡ bare (dump_cause path (program_read (Some bytes.items)))) }
    ensures text { IfOk result (λ answer. answer.text ≡ reading_text path (program_read (Some bytes.items))) }
{
    let file = SharedBytes::from_vec(bytes)?;
    match read_object(alloc, &file, true) {
        Ok((object, _table)) => Ok(done(dump_text(alloc, &object)?)),
        Err(ReadFault::NotAccepted(broken)) => {
            refused(alloc, DlFault::NotAccepted(path, broken))
        }
        Err(ReadFault::Memory) => Err(AllocError),
    }
}

/// Reads the object at a path, and gives what it holds, or why it is refused.
pub(crate) fn dump<L: Library>(
    alloc: Global,
    path: Name,
    library: &mut L,
) -> Result<Answer, AllocError>
    ensures answers { IfOk result (λ answer. WordsAnswer (Some (Command.Dump path)) (library_at L.files L.faults L.misses library.old)
        (library_at L.files L.faults L.misses library.new) answer.end answer.text) }

    // What the library is left as.
    ensures files { L.files library.new ≡ L.files library.old }
    ensures faults { L.faults library.old ≤ L.faults library.new }
    ensures misses { L.misses library.old ≤ L.misses library.new }
{
    match library.read(path.as_bytes()) {
        Ok(bytes) => of_bytes(alloc, path, bytes),
        Err(ReadError::Missing) => refused(alloc, DlFault::MissingLibrary(path)),
        Err(ReadError::Failed) => refused(alloc, DlFault::ReadFault(path)),
        Err(ReadError::Memory) => Err(AllocError),
    }
}
