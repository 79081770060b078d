//! The laws.

ghost use Rattle.std.specs.Prelude.{◌≡◌, ◌+◌, ◌<◌, ◌≤◌, ◌^◌, List, ℕ, length};
ghost use Rattle.asm_write.specs.declared.part.Part.{Part};
ghost use Rattle.asm_write.specs.Records.{file_size};
ghost use Rattle.asm_write.specs.Sizes.{plain_size};
ghost use Rattle.asm_write.specs.Starts.{size_in, start_in, starts_of};
ghost use Rattle.asm_laws.specs.ElfWritten.Fitting.{HasOwnBytes};
ghost use Rattle.asm_laws.specs.ElfWritten.Standing.{PacksBehind};
ghost use Rattle.asm_laws.specs.ElfSpelled.Whole.{IsWhole};
ghost use Rattle.asm_statement.specs.declared.line.Line.{Line};
ghost use Rattle.asm_layout.specs.Contents.{contents_of};
ghost use Rattle.asm_layout.specs.Faults.{HasNoFault};
ghost use Rattle.asm_layout.specs.Fixes.{fixes_of};
ghost use Rattle.asm_layout.specs.Object.{code_of, object_of};
ghost use Rattle.asm_grammar.specs.Grammar.{SaysSource};
ghost use Rattle.asm_layout.specs.AsmDenotes.Denotes.{Denotes};

use crate::asm_whole::{alignments_divide_pages, sources_are_short};
use crate::elf_spelled::parts_stand_at_their_starts;
use crate::elf_written::{file_has_its_size, parts_have_their_sizes};
use crate::{sections_are_small, sections_have_their_sizes, strings_are_said};

/// Each part of a source's object ends below 2^62.
pub fn parts_end_low()
    ensures { (source : List ℕ) (lines : List Line) → SaysSource source lines → (part : Part)
        → start_in (starts_of (contents_of lines)) part + size_in (starts_of (contents_of lines)) part < 2 ^ 62 }
{
    sources_are_short();
    sections_are_small();
    strings_are_said();
    alignments_divide_pages();
}

/// The places of a source that are packed stand in the third segment or behind it.
pub fn packed_places_stand_behind()
    ensures { (source : List ℕ) (lines : List Line) → SaysSource source lines → PacksBehind (starts_of (contents_of lines)) (fixes_of lines) }
{
    sources_are_short();
    sections_are_small();
    parts_end_low();
}

/// What a source's object holds is whole, where no line has a fault: its parts have the bytes and the places that they are to have.
pub fn objects_are_whole()
    ensures { (source : List ℕ) (lines : List Line) → SaysSource source lines → HasNoFault lines
        → IsWhole (contents_of lines) (code_of lines (starts_of (contents_of lines))) }
{
    sources_are_short();
    alignments_divide_pages();
    sections_have_their_sizes();
    packed_places_stand_behind();
    parts_end_low();
}

/// The object of a source without a fault has as many bytes as the size of its file says, by which it is judged too big.
pub fn object_has_its_size()
    ensures { (source : List ℕ) (lines : List Line) → SaysSource source lines → HasNoFault lines
        → length (object_of lines) ≡ file_size (starts_of (contents_of lines)) }
{
    objects_are_whole();
    file_has_its_size();
}

/// An object that a source denotes has 8 MiB at most.
pub fn denoted_objects_are_small()
    ensures { (source bytes : List ℕ) → Denotes source bytes → length bytes ≤ 8_388_608 }
{
    object_has_its_size();
}

/// Each part of an object that a source denotes has 8 MiB at most, where its bytes stand in the file.
pub fn parts_are_within_the_object()
    ensures { (source bytes : List ℕ) → (denotes : Denotes source bytes) → (part : Part) → HasOwnBytes part
        → plain_size (contents_of denotes.lines) part ≤ 8_388_608 }
{
    objects_are_whole();
    denoted_objects_are_small();
    parts_have_their_sizes();
    parts_stand_at_their_starts();
}
