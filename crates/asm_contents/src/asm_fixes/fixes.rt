//! The places that the linker fills, table by table and section by section.

ghost use Rattle.std.specs.Prelude.{◌≡◌, ◌+◌, ◌*◌, ◌≤◌, ◌<◌, ◌++◌, ◌^◌, ℕ, List, IfOk, OnOk, length, option_map, option_to_list};
ghost use Rattle.std.specs.List.{cons_option};
ghost use Rattle.asm_statement.specs.declared.line.Line.{Line};
ghost use Rattle.asm_layout.specs.Fixes.{array_fixes, fixes_of, got_fix, got_fixes, line_fixes, section_fixes};
ghost use Rattle.asm_layout.specs.Places.{place_at};
ghost use Rattle.asm_layout.specs.Tables.{entries, entry_in, got_words, same_array};
ghost use Rattle.asm_contents.specs.AsmFixes.Fixer.{IsFixerOf};
ghost use Rattle.asm_contents.specs.AsmFixes.Arrays.{array_part};

use crate::asm_fixes::fixer::{Fixer, table_spot};
use asm_layout::{GotKind, GotUse};
use asm_places::section_number;
use asm_statement::{Array, Directive, Line, Section, Statement, Statements};
use asm_write::{Fix, FixKind, Part};
use ld_base::Sequence;
use std::alloc::{AllocError, Global};

/// The part of an array.
fn array_part(array: Array) -> Part
    ensures { result ≡ array_part array }
{
    match array {
        Array::Preinit => Part::PreinitArray,
        Array::Init => Part::InitArray,
        Array::Fini => Part::FiniArray,
    }
}

fn same_array(one: Array, other: Array) -> bool
    ensures { result ≡ same_array one other }
{
    one == other
}

/// The label whose address a line puts into an array.
fn entry_in(array: Array, line: &Line) -> Option<&[u8]>
    ensures { option_map (λ name. name.now) result ≡ entry_in array line.now.statement }
{
    let Some(Statement::Directive(Directive::Entries(which, name))) = &line.statement else {
        return None;
    };
    if same_array(array, *which) {
        Some(name.as_bytes())
    } else {
        None
    }
}

impl<'a> Fixer<'a> {
    /// Appends the words of the global offset table for a name, the first of which stands so far behind its
    /// start, and tells where the next ones stand.
    fn push_got(
        self,
        fixes: &mut Sequence<Fix>,
        offset: u128,
        got: &GotUse,
    ) -> Result<u128, AllocError>
        requires { offset < 2 ^ 127 }
        ensures next { IfOk result (λ next. next ≡ offset + 8 * got_words got.now.kind) }
        ensures fixes { OnOk result ((lines : List Line) → IsFixerOf lines self.entry
            → fixes.new ≡ fixes.old ++ got_fix lines offset got.now.name got.now.kind) }
    {
        let name = got.name.as_bytes();
        match got.kind {
            GotKind::Address => {
                fixes.push(self.address_fix(table_spot(Part::Got, offset), name, 0))?;
                Ok(offset + 8)
            }
            GotKind::Pair => {
                fixes.push(self.tls_fix(FixKind::Module, offset, name))?;
                fixes.push(self.tls_fix(FixKind::Offset, offset + 8, name))?;
                Ok(offset + 16)
            }
            GotKind::Offset => {
                fixes.push(self.tls_fix(FixKind::ThreadOffset, offset, name))?;
                Ok(offset + 8)
            }
        }
    }

    /// Appends the words of the global offset table.
    fn push_gots(self, fixes: &mut Sequence<Fix>, uses: &[GotUse]) -> Result<(), AllocError>
        ensures { OnOk result ((lines : List Line) → IsFixerOf lines self.entry
            → fixes.new ≡ fixes.old ++ got_fixes lines 0 uses.now) }
    {
        let mut offset = 0u128;
        for got in uses {
            offset = self.push_got(fixes, offset, got)?;
        }
        Ok(())
    }

    /// Appends the entry that a line puts into an array, so far behind the array's start, and tells where
    /// the next one stands.
    fn push_entry(
        self,
        fixes: &mut Sequence<Fix>,
        array: Array,
        offset: u128,
        line: &Line,
    ) -> Result<u128, AllocError>
        requires { offset < 2 ^ 127 }
        ensures next { IfOk result (λ next. next ≤ offset + 8) }
        ensures fixes { IfOk result (λ next. (lines : List Line) (rest : List (List ℕ)) → IsFixerOf lines self.entry
            → fixes.new ++ array_fixes lines (array_part array) next rest
            ≡ fixes.old ++ array_fixes lines (array_part array) offset (cons_option (entry_in array line.now.statement) rest)) }
    {
        match entry_in(array, line) {
            Some(name) => {
                fixes.push(self.array_fix(array_part(array), offset, name))?;
                Ok(offset + 8)
            }
            None => Ok(offset),
        }
    }

    /// Appends the entries of an array.
    fn push_array(
        self,
        fixes: &mut Sequence<Fix>,
        array: Array,
        statements: &Statements,
    ) -> Result<(), AllocError>
        ensures { OnOk result (IsFixerOf statements.now self.entry
            → fixes.new ≡ fixes.old ++ array_fixes statements.now (array_part array) 0 (entries array statements.now)) }
    {
        let mut offset = 0u128;
        for line in statements.as_slice() {
            offset = self.push_entry(fixes, array, offset, line)?;
        }
        Ok(())
    }

    /// What a line with a number from 0 has the linker put into a section.
    fn line_fix(self, section: Section, number: usize, line: &Line) -> Option<Fix>
        ensures { (lines : List Line) → IsFixerOf lines self.entry → number < length lines
            → option_to_list result ≡ line_fixes lines section (place_at lines number) line.now }
    {
        let place = *self.spots.places.lines.as_slice().get(number)?;
        if section_number(section) == section_number(place.section) {
            self.statement_fix(asm_symbols::spot_of(place), line)
        } else {
            None
        }
    }

    /// Appends the places of a section.
    fn push_section(
        self,
        fixes: &mut Sequence<Fix>,
        target: Section,
        statements: &Statements,
    ) -> Result<(), AllocError>
        ensures { OnOk result (IsFixerOf statements.now self.entry
            → fixes.new ≡ fixes.old ++ section_fixes statements.now target 0 statements.now) }
    {
        for (number, line) in statements.as_slice().iter().enumerate() {
            push_found(fixes, self.line_fix(target, number, line))?;
        }
        Ok(())
    }
}

/// Appends a place, where there is one.
fn push_found(fixes: &mut Sequence<Fix>, found: Option<Fix>) -> Result<(), AllocError>
    ensures { OnOk result (fixes.new ≡ fixes.old ++ option_to_list found) }
{
    match found {
        Some(fix) => fixes.push(fix),
        None => Ok(()),
    }
}

/// Appends the places that the linker fills.
#[tactic(auto, unfolding(asm_layout::specs::Fixes::fixes_of))]
fn fill_fixes(
    fixes: &mut Sequence<Fix>,
    statements: &Statements,
    fixer: Fixer<'_>,
) -> Result<(), AllocError>
    requires { IsFixerOf statements.now fixer }
    ensures { OnOk result (fixes.new ≡ fixes.old ++ fixes_of statements.now) }
{
    fixer.push_gots(fixes, fixer.spots.uses.got.uses.as_slice())?;
    fixer.push_array(fixes, Array::Preinit, statements)?;
    fixer.push_array(fixes, Array::Init, statements)?;
    fixer.push_array(fixes, Array::Fini, statements)?;
    fixer.push_section(fixes, Section::Relro, statements)?;
    fixer.push_section(fixes, Section::Tdata, statements)?;
    fixer.push_section(fixes, Section::Data, statements)?;
    fixer.push_section(fixes, Section::Bss, statements)
}

/// The places of a source's object that the linker fills, in ascending order.
///
/// # Errors
///
/// Want of memory.
pub fn fixes_of(
    alloc: Global,
    statements: &Statements,
    fixer: Fixer<'_>,
) -> Result<Sequence<Fix>, AllocError>
    requires { IsFixerOf statements.now fixer }
    ensures { IfOk result (λ fixes. fixes ≡ fixes_of statements.now) }
{
    let mut fixes = Sequence::new(alloc);
    match fill_fixes(&mut fixes, statements, fixer) {
        Ok(()) => Ok(fixes),
        Err(error) => Err(error),
    }
}
