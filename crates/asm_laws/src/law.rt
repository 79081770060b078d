//! The laws.

ghost use Rattle.std.specs.Prelude.{◌<◌, ◌^◌, List, ℕ, length, take};
ghost use Rattle.std.specs.List.{All};
ghost use Rattle.asm_write.specs.declared.starts.Starts.{Starts};
ghost use Rattle.asm_laws.specs.ElfWritten.Fitting.{FitsSections};
ghost use Rattle.asm_statement.specs.declared.directive.Section.{Section as Sections};
ghost use Rattle.asm_statement.specs.declared.line.Line.{Line};
ghost use Rattle.asm_layout.specs.Contents.{contents_of, string_names};
ghost use Rattle.asm_layout.specs.Faults.{HasNoFault};
ghost use Rattle.asm_layout.specs.Fixes.{fixes_of};
ghost use Rattle.asm_layout.specs.Object.{code_of};
ghost use Rattle.asm_layout.specs.Places.{filled};
ghost use Rattle.asm_laws.specs.Ascending.{AreFrom};
ghost use Rattle.asm_laws.specs.Said.{IsSaid};
ghost use Rattle.asm_laws.specs.Short.{AreOfSource};

use asm_layout::words_have_their_room;

/// The places that the linker fills stand in ascending order, and none reaches into the next. A source has a million lines at most.
pub fn fixes_ascend()
    ensures { (lines : List Line) → length lines < 2 ^ 59 → AreFrom 0 0 (fixes_of lines) }
{}

/// No section of a source passes 64 bits, by far, wherever its lines are cut: so wherever a section's size is no number of 64 bits, the lines
/// are of no source.
pub fn sections_are_small()
    ensures { (lines : List Line) → AreOfSource lines → (k : ℕ) (section : Sections) → filled section (take k lines) < 2 ^ 53 }
{}

/// Each name in the strings of an object is one that its lines say.
pub fn strings_are_said()
    ensures { (lines : List Line) → All (IsSaid lines) (string_names lines) }
{}

/// The bytes of each section are as many as its lines fill, and those of the procedure linkage table as many as its slots take, where no
/// line has a fault.
pub fn sections_have_their_sizes()
    ensures { (lines : List Line) → HasNoFault lines → (starts : Starts) → FitsSections (contents_of lines) (code_of lines starts) }
{
    words_have_their_room();
}
