//! What holds of the grammar.

ghost use Rattle.std.specs.Prelude.{◌≡◌, ◌↔◌, ◌⊎◌, ℕ, List, Ok, Err};
ghost use Rattle.asm_statement.specs.declared.line.Line.{Line};
ghost use Rattle.ld_base.specs.declared.fault.AsmCause.{AsmCause};
ghost use Rattle.asm_grammar.specs.Grammar.{SaysLine, BreaksLine, SaysSource, BreaksSource};
ghost use Rattle.asm_grammar.specs.Reading.{statements_of};
ghost use Rattle.asm_grammar.specs.Worked.{AreRead, worked};

/// A line says one thing, or breaks the grammar for one cause, and never both.
pub fn one_line()
    ensures either { (line : List ℕ) → ((says : Line) × SaysLine line says) ⊎ ((cause : AsmCause) × BreaksLine line cause) }
    ensures never_both { (line : List ℕ) (says : Line) (cause : AsmCause) → SaysLine line says → BreaksLine line cause → ⊥ }
    ensures one { (line : List ℕ) (first second : Line) → SaysLine line first → SaysLine line second → first ≡ second }
    ensures one_cause { (line : List ℕ) (first second : AsmCause) → BreaksLine line first → BreaksLine line second → first ≡ second }
{}

/// What is read of a source is what it says, and it is refused exactly where it breaks the grammar: at
/// that line and for that cause.
pub fn one_source()
    ensures says { (source : List ℕ) (says : List Line) → (statements_of source ≡ Ok says) ↔ SaysSource source says }
    ensures breaks { (source : List ℕ) (line : ℕ) (cause : AsmCause) → (statements_of source ≡ Err (line, cause)) ↔ BreaksSource source line cause }
{}

/// Some lines, worked out by hand, are read so.
pub fn lines_are_read()
    ensures { AreRead worked }
{}
