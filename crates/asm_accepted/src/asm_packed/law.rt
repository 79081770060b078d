//! The laws.

ghost use Rattle.std.specs.Prelude.{List, ℕ};
ghost use Rattle.asm_write.specs.Starts.{starts_of};
ghost use Rattle.asm_write.specs.Values.{packed_places};
ghost use Rattle.asm_laws.specs.ElfWritten.Placed.{AreAscending};
ghost use Rattle.asm_statement.specs.declared.line.Line.{Line};
ghost use Rattle.asm_layout.specs.Contents.{contents_of};
ghost use Rattle.asm_layout.specs.Faults.{HasNoFault};
ghost use Rattle.asm_layout.specs.Fixes.{fixes_of};
ghost use Rattle.asm_grammar.specs.Grammar.{SaysSource};

use asm_laws::{
    fixes_ascend, parts_end_low, parts_stand_apart, sections_are_small, sources_are_short,
};

/// The places of a source's object that are packed are even and ascend, where no line has a fault: so the packed table can name them.
pub fn packed_places_ascend()
    ensures { (source : List ℕ) (lines : List Line) → SaysSource source lines → HasNoFault lines
        → AreAscending 0 (packed_places (starts_of (contents_of lines)) (fixes_of lines)) }
{
    sources_are_short();
    sections_are_small();
    parts_end_low();
    fixes_ascend();
    parts_stand_apart();
}
