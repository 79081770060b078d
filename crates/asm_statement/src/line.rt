//! Statements and lines.

use crate::directive::Directive;
use crate::instruction::Instruction;
use ld_base::{Name, Sequence};

/// A statement.
#[derive(Drop)]
pub enum Statement {
    /// One that begins with a point.
    Directive(Directive),
    /// One that is code.
    Instruction(Instruction),
}

/// A line of a source: it may have a label, and it may have a statement.
#[derive(Drop)]
pub struct Line {
    /// The label that the line defines.
    pub label: Option<Name>,
    /// What the line says.
    pub statement: Option<Statement>,
}

/// The lines of a source, all of them and in order.
pub type Statements = Sequence<Line>;
