//! The bytes of a source's object.

ghost use Rattle.std.specs.Prelude.{◌≡◌, IfOk, IfErr};
ghost use Rattle.asm_layout.specs.Object.{code_of, object_of};
ghost use Rattle.asm_object.specs.Code.{IsCodeOf};
ghost use Rattle.asm_layout.specs.AsmDenotes.Denotes.{AreObjectOf, Denotes, TellsOfLines, TellsOf};

use crate::asm_bytes::code_of;
use crate::last::last_statement;
use crate::placing::{Code, layout};
use asm_statement::{AsmFault, Statements};
use asm_text::parse;
use asm_write::{SectionBytes, file_size, object_bytes};
use ld_base::AsmCause;
use std::alloc::{AllocError, Global};

/// How many bytes an object may have.
const LARGEST_OBJECT: u64 = 8 << 20;

/// The bytes of the sections of placed code.
fn sections_of(
    alloc: Global,
    statements: &Statements,
    code: &Code,
) -> Result<SectionBytes, AllocError>
    requires { IsCodeOf statements.now code.now }
    ensures { IfOk result (λ sections. sections ≡ code_of statements.now code.now.starts) }
{
    code_of(
        alloc,
        statements,
        code.places.lines.as_slice(),
        code.words.as_slice(),
        code.numbers.as_slice(),
        code.slots,
        &code.starts,
    )
}

/// The bytes of placed code.
#[tactic(auto, unfolding(asm_layout::specs::Object::object_of))]
fn bytes_of(alloc: Global, statements: &Statements, code: &Code) -> Result<Vec<u8>, AllocError>
    requires { IsCodeOf statements.now code.now }
    ensures { IfOk result (λ bytes. bytes.items ≡ object_of statements.now) }
{
    let sections = sections_of(alloc, statements, code)?;
    object_bytes(alloc, &code.starts, &code.contents, &sections)
}

/// The bytes of the object of lines, or why they have none.
#[tactic(auto, unfolding(asm_layout::specs::Object::is_too_big))]
fn object_of(alloc: Global, statements: &Statements) -> Result<Vec<u8>, AsmFault>
    ensures object { IfOk result (λ bytes. AreObjectOf statements.now bytes.items) }
    ensures refused { IfErr result (TellsOfLines statements.now) }
{
    let code = layout(alloc, statements)?;
    if file_size(&code.starts) > LARGEST_OBJECT {
        return Err(AsmFault::At(last_statement(statements), AsmCause::TooBig));
    }
    Ok(bytes_of(alloc, statements, &code)?)
}

/// The bytes of the object that a source denotes, or the line at which it is refused and the cause.
///
/// # Errors
///
/// Lines count from 1. First the source is read: line 0 and `TooBig` for more than 1 MiB, else the first
/// line that is none of the grammar. Then what the lines say is judged, as [`layout`] does. Last `TooBig`, at
/// the line of the last statement, where the object would have more than 8 MiB. Or want of memory.
pub fn assemble(alloc: Global, source: &[u8]) -> Result<Vec<u8>, AsmFault>
    ensures denotes { IfOk result (λ bytes. Denotes source.now bytes.items) }
    ensures refused { IfErr result (TellsOf source.now) }
{
    let statements = parse(alloc, source)?;
    object_of(alloc, &statements)
}
