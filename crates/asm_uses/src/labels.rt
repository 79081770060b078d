//! The lines that define names.

ghost use Rattle.std.specs.Prelude.{◌≡◌, ◌≤◌, [], ℕ, List, length, take, Some, None, OnOk, option_map, if◌then◌else◌};
ghost use Rattle.std.specs.Option.{option_or};
ghost use Rattle.asm_statement.specs.declared.line.Line.{Line};
ghost use Rattle.asm_layout.specs.Labels.{copy_name, defined_by, defines, is_label, is_taken};
ghost use Rattle.asm_uses.specs.Numbers.{number_of};
ghost use Rattle.asm_uses.specs.Lines.{AreLabelsOf};

use crate::first_numbers::FirstNumbers;
use asm_statement::{Directive, Line, Statement, Statements};
use std::alloc::{AllocError, Global};
use std::marker::Model;

/// The names that lines define, each with the first line that defines it. Contracts see a list of both.
#[derive(Drop)]
pub struct Labels {
    lines: FirstNumbers,
}

impl Model for Labels {
    ghost use Rattle.std.specs.Prelude.{List, ℕ};

    ghost Value = { List (List ℕ × ℕ) };

    ghost view = { λ l. l.lines };
}

impl Labels {
    /// No names.
    pub(crate) fn new(alloc: Global) -> Self
        ensures { result ≡ [] }
    {
        Labels {
            lines: FirstNumbers::new(alloc),
        }
    }

    /// Fills in those of the lines of a source.
    ///
    /// # Errors
    ///
    /// Want of memory.
    pub(crate) fn fill(&mut self, alloc: Global, statements: &Statements) -> Result<(), AllocError>
        requires { self.old ≡ [] }
        ensures { OnOk result (AreLabelsOf statements.now self.new) }
    {
        fill_lines(alloc, &mut self.lines, statements)
    }

    /// The first line that defines the name, counted from 0.
    pub fn line(&self, name: &[u8]) -> Option<usize>
        ensures { result ≡ number_of self.now name.now }
    {
        self.lines.get(name)
    }

    /// Whether a line defines the name.
    pub fn contains(&self, name: &[u8]) -> bool
        ensures { (lines : List Line) → AreLabelsOf lines self.now → result ≡ is_label lines name.now }
    {
        self.lines.contains(name)
    }

    /// Whether a line before this one, counted from 0, defines the name.
    fn is_before(&self, name: &[u8], number: usize) -> bool
        ensures { (lines : List Line) → AreLabelsOf lines self.now → number ≤ length lines → result ≡ is_label (take number lines) name.now }
    {
        self.lines.is_below(name, number)
    }

    /// Whether a line with this number, counted from 0, defines a name that an earlier line defines,
    /// or one name twice.
    pub fn is_double(&self, line: &Line, number: usize) -> bool
        ensures { (lines : List Line) → AreLabelsOf lines self.now → number ≤ length lines
            → result ≡ is_taken (take number lines) (defined_by line.now) }
    {
        match (&line.label, copy_name(line)) {
            (Some(label), Some(copy)) => {
                self.is_before(label.as_bytes(), number)
                    || label.as_bytes() == copy
                    || self.is_before(copy, number)
            }
            (Some(label), None) => self.is_before(label.as_bytes(), number),
            (None, Some(copy)) => self.is_before(copy, number),
            (None, None) => false,
        }
    }
}

/// The name of the copy that a line makes.
pub(crate) fn copy_name(line: &Line) -> Option<&[u8]>
    ensures { option_map (λ name. name.now) result ≡ copy_name line.now.statement }
{
    match &line.statement {
        Some(Statement::Directive(Directive::Copy(name, _))) => Some(name.as_bytes()),
        _ => None,
    }
}

/// Notes the names that a line defines.
fn add_line(
    alloc: Global,
    lines: &mut FirstNumbers,
    line: &Line,
    number: usize,
) -> Result<(), AllocError>
    ensures { OnOk result ((other : List ℕ) →
        number_of lines.new other ≡ option_or (number_of lines.old other) (if defines other line.now then Some number else None)) }
{
    if let Some(name) = &line.label {
        lines.note(alloc, name.as_bytes(), number)?;
    }
    if let Some(name) = copy_name(line) {
        lines.note(alloc, name, number)?;
    }
    Ok(())
}

/// Notes the names that the lines of a source define.
fn fill_lines(
    alloc: Global,
    lines: &mut FirstNumbers,
    statements: &Statements,
) -> Result<(), AllocError>
    requires { lines.old ≡ [] }
    ensures { OnOk result (AreLabelsOf statements.now lines.new) }
{
    for (number, line) in statements.as_slice().iter().enumerate() {
        add_line(alloc, lines, line, number)?;
    }
    Ok(())
}
