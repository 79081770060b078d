//! The string table.

ghost use Rattle.std.specs.Prelude.{◌≡◌, ◌++◌, OnOk, flat_map, map, option_map};
ghost use Rattle.asm_layout.specs.Contents.{string_bytes};
ghost use Rattle.asm_layout.specs.Tables.{library_needed, needed};
ghost use Rattle.asm_symbols.specs.AsmTables.Needed.{library_bytes};

use asm_layout::Exported;
use asm_statement::{Directive, Line, Statement, Statements};
use ld_base::{Bytes, Name};
use std::alloc::AllocError;

/// Appends a name and a zero byte.
///
/// # Errors
///
/// Want of memory. A part of the bytes may have been appended then.
#[tactic(auto, unfolding(asm_layout::specs::Contents::string_bytes))]
pub fn append_string(out: &mut Bytes, name: &[u8]) -> Result<(), AllocError>
    ensures { OnOk result (out.new ≡ out.old ++ string_bytes name.now) }
{
    out.extend_from_slice(name)?;
    out.push(0)
}

/// The library that a line needs.
fn library_needed(line: &Line) -> Option<&[u8]>
    ensures { option_map (λ name. name.now) result ≡ library_needed line.now.statement }
{
    match &line.statement {
        Some(Statement::Directive(Directive::Needed(name))) => Some(name.as_bytes()),
        _ => None,
    }
}

/// Appends the library that a line needs.
fn append_line(out: &mut Bytes, line: &Line) -> Result<(), AllocError>
    ensures { OnOk result (out.new ≡ out.old ++ library_bytes (library_needed line.now.statement)) }
{
    match library_needed(line) {
        Some(name) => append_string(out, name),
        None => Ok(()),
    }
}

/// Appends the libraries that lines need, line by line.
fn append_lines(out: &mut Bytes, lines: &[Line]) -> Result<(), AllocError>
    ensures { OnOk result (out.new ≡ out.old ++ flat_map (λ line. library_bytes (library_needed line.statement)) lines.now) }
{
    for line in lines {
        append_line(out, line)?;
    }
    Ok(())
}

/// Appends the names of the libraries that a source needs.
///
/// # Errors
///
/// Want of memory. A part of the bytes may have been appended then.
pub fn append_needed(out: &mut Bytes, statements: &Statements) -> Result<(), AllocError>
    ensures { OnOk result (out.new ≡ out.old ++ flat_map string_bytes (needed statements.now)) }
{
    append_lines(out, statements.as_slice())
}

/// Appends names.
///
/// # Errors
///
/// Want of memory. A part of the bytes may have been appended then.
pub fn append_names(out: &mut Bytes, names: &[Name]) -> Result<(), AllocError>
    ensures { OnOk result (out.new ≡ out.old ++ flat_map string_bytes names.now) }
{
    for name in names {
        append_string(out, name.as_bytes())?;
    }
    Ok(())
}

/// Appends names that are spelled so.
///
/// # Errors
///
/// Want of memory. A part of the bytes may have been appended then.
pub fn append_spelled(out: &mut Bytes, names: &[Vec<u8>]) -> Result<(), AllocError>
    ensures { OnOk result (out.new ≡ out.old ++ flat_map string_bytes (map (λ name. name.items) names.now)) }
{
    for name in names {
        append_string(out, name)?;
    }
    Ok(())
}

/// Appends the names of exported symbols.
///
/// # Errors
///
/// Want of memory. A part of the bytes may have been appended then.
pub fn append_exports(out: &mut Bytes, exports: &[Exported]) -> Result<(), AllocError>
    ensures { OnOk result (out.new ≡ out.old ++ flat_map string_bytes (map (λ exported. exported.name) exports.now)) }
{
    for exported in exports {
        append_string(out, exported.name.as_bytes())?;
    }
    Ok(())
}
