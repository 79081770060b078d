//! The laws.

ghost use Rattle.std.specs.Prelude.{List, ℕ};
ghost use Rattle.asm_statement.specs.declared.line.Line.{Line};
ghost use Rattle.asm_layout.specs.Contents.{contents_of};
ghost use Rattle.asm_layout.specs.Faults.{HasNoFault};
ghost use Rattle.asm_grammar.specs.Grammar.{SaysSource};
ghost use Rattle.asm_layout.specs.AsmDenotes.Denotes.{Denotes};
ghost use Rattle.asm_accepted.specs.AsmFields.Strings.{NamesStand};
ghost use Rattle.asm_accepted.specs.AsmFields.Fitting.{NumbersFit};

use asm_laws::{
    denoted_objects_are_small, objects_are_whole, parts_stand_at_their_starts, sections_are_small,
    sources_are_short, strings_are_said,
};

/// The numbers of a source's object are ones that the fields of its tables hold, where no line has a fault.
pub fn numbers_fit_their_fields()
    ensures { (source : List ℕ) (lines : List Line) → SaysSource source lines → HasNoFault lines → NumbersFit (contents_of lines) }
{
    sources_are_short();
    sections_are_small();
}

/// The names of a source that denotes an object stand in the object's strings, each at its offset.
pub fn names_stand_at_their_offsets()
    ensures { (source bytes : List ℕ) → (denotes : Denotes source bytes) → NamesStand denotes.lines }
{
    sources_are_short();
    strings_are_said();
    objects_are_whole();
    denoted_objects_are_small();
    parts_stand_at_their_starts();
}
