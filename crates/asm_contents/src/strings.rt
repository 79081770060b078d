//! The string table, and where names begin in it.

ghost use Rattle.std.specs.Prelude.{◌≡◌, ◌++◌, ℕ, List, IfOk, OnOk, flat_map, length, option_map, option_to_list};
ghost use Rattle.asm_statement.specs.declared.line.Line.{Line};
ghost use Rattle.asm_layout.specs.Contents.{offsets_from, string_bytes};
ghost use Rattle.asm_layout.specs.Tables.{library_needed, needed as needed_of};
ghost use Rattle.asm_layout.specs.Versions.{word};
ghost use Rattle.std.specs.List.{cons_option};
ghost use Rattle.asm_contents.specs.Marks.{AreMarksOf, AreStringsBehind};

use crate::object_words::soname;
use asm_layout::Exported;
use asm_places::{NeededFile, NeededFiles};
use asm_statement::{Directive, Line, Statement, Statements};
use asm_symbols::{
    append_exports, append_needed, append_spelled, append_string, offset_behind, word,
};
use asm_uses::Uses;
use ld_base::{Bytes, Ints};
use std::alloc::AllocError;

/// Where the names of each kind begin in the strings.
#[derive(Clone, Copy)]
pub(crate) struct Marks {
    /// The libraries that the object needs.
    pub needed: u32,
    /// The undefined symbols.
    pub imports: u32,
    /// The exported symbols.
    pub exports: u32,
    /// The versions that the object defines.
    pub versions: u32,
    /// The files of which it needs versions.
    pub files: u32,
    /// These versions.
    pub needed_versions: u32,
}

/// The offset of the name that is appended next.
fn offset_of(strings: &Bytes) -> u32
    ensures { result ≡ word (length strings.now) }
{
    word(strings.len() as u128)
}

/// Appends a name, where there is one.
fn append_found(out: &mut Bytes, name: Option<&[u8]>) -> Result<(), AllocError>
    ensures { OnOk result (out.new ≡ out.old ++ flat_map string_bytes (option_to_list (option_map (λ n. n.now) name.entry))) }
{
    match name {
        Some(name) => append_string(out, name),
        None => Ok(()),
    }
}

/// Appends the versions that are needed of files.
fn append_versions(out: &mut Bytes, files: &[NeededFile]) -> Result<(), AllocError>
    ensures { OnOk result (out.new ≡ out.old ++ flat_map string_bytes (flat_map (λ file. file.versions) files.now)) }
{
    for file in files {
        append_spelled(out, file.versions.as_slice())?;
    }
    Ok(())
}

/// Appends all names, kind by kind, behind the empty one, and tells where those of each kind begin.
pub(crate) fn append_strings(
    out: &mut Bytes,
    statements: &Statements,
    uses: &Uses,
    needed: &NeededFiles,
    sorted: &[Exported],
) -> Result<Marks, AllocError>
    ensures { IfOk result (λ marks. (lines : List Line) → AreStringsBehind lines statements.now uses.now needed.now sorted.now out.old
        → AreMarksOf lines out.new marks) }
{
    out.push(0)?;
    append_found(out, soname(statements))?;
    let needed_at = offset_of(out);
    append_needed(out, statements)?;
    let imports = offset_of(out);
    append_spelled(out, uses.imports.as_slice())?;
    let exports = offset_of(out);
    append_exports(out, sorted)?;
    let versions = offset_of(out);
    append_spelled(out, uses.versions.as_slice())?;
    let files = offset_of(out);
    append_spelled(out, needed.names.as_slice())?;
    let needed_versions = offset_of(out);
    append_versions(out, &needed.files)?;
    Ok(Marks {
        needed: needed_at,
        imports,
        exports,
        versions,
        files,
        needed_versions,
    })
}

/// The library that a line needs.
fn library_needed(line: &Line) -> Option<&[u8]>
    ensures { option_map (λ name. name.now) result ≡ library_needed line.now.statement }
{
    match &line.statement {
        Some(Statement::Directive(Directive::Needed(name))) => Some(name.as_bytes()),
        _ => None,
    }
}

/// Appends the offset of a library's name, where a line needs one, and tells that of the next.
fn push_offset(offsets: &mut Ints, at: u32, line: &Line) -> Result<u32, AllocError>
    ensures { IfOk result (λ next. (rest : List (List ℕ)) → offsets.new ++ offsets_from next rest
        ≡ offsets.old ++ offsets_from at (cons_option (library_needed line.now.statement) rest)) }
{
    match library_needed(line) {
        Some(name) => {
            offsets.push(at)?;
            Ok(offset_behind(at, name))
        }
        None => Ok(at),
    }
}

/// Appends the offsets of the names of the libraries that a source needs, which begin at an offset.
pub(crate) fn push_offsets(
    offsets: &mut Ints,
    first: u32,
    statements: &Statements,
) -> Result<(), AllocError>
    ensures { OnOk result (offsets.new ≡ offsets.old ++ offsets_from first (needed_of statements.now)) }
{
    let mut at = first;
    for line in statements.as_slice() {
        at = push_offset(offsets, at, line)?;
    }
    Ok(())
}
