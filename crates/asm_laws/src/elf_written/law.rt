//! The laws.

ghost use Rattle.std.specs.Prelude.{◌≡◌, ◌+◌, ◌<◌, ◌≤◌, List, ℕ, length};
ghost use Rattle.asm_write.specs.declared.contents.Contents.{Contents};
ghost use Rattle.asm_write.specs.declared.contents.SectionBytes.{SectionBytes};
ghost use Rattle.asm_write.specs.declared.part.Part.{Part};
ghost use Rattle.asm_write.specs.declared.starts.Starts.{Starts};
ghost use Rattle.elf_dynamic.specs.Parts.{NamePlaces};
ghost use Rattle.asm_write.specs.Parts.{number_of};
ghost use Rattle.asm_write.specs.Records.{file_size};
ghost use Rattle.asm_write.specs.Relr.{relr_words};
ghost use Rattle.asm_write.specs.Sizes.{plain_size};
ghost use Rattle.asm_write.specs.Starts.{relr_size, size_in, start_in, starts_of};
ghost use Rattle.asm_write.specs.Values.{object_bytes, part_bytes, relr_bytes};
ghost use Rattle.asm_laws.specs.ElfWritten.Fitting.{FitsSections, HasOwnBytes};
ghost use Rattle.asm_laws.specs.ElfWritten.Placed.{AreAscending};
ghost use Rattle.asm_laws.specs.ElfWritten.Standing.{AlignsInPages, EndsInside, PacksBehind};

/// Wherever parts start, a part has as many bytes as its size says, where the bytes of the sections do.
pub fn parts_have_their_sizes()
    ensures { (starts : Starts) (contents : Contents) (code : SectionBytes) → FitsSections contents code → (part : Part) → HasOwnBytes part
        → length (part_bytes starts contents code part) ≡ plain_size contents part }
{}

/// A part ends before any later one starts.
pub fn parts_stand_apart()
    ensures { (contents : Contents) (one other : Part) → number_of one < number_of other
        → start_in (starts_of contents) one + size_in (starts_of contents) one ≤ start_in (starts_of contents) other }
{}

/// The packed table has as many bytes as were counted before the third segment had its address, where alignments divide a page and the
/// places that are packed stand in that segment or behind it.
pub fn packed_table_has_its_size()
    ensures { (contents : Contents) → AlignsInPages contents → PacksBehind (starts_of contents) contents.fixes
        → length (relr_bytes (starts_of contents) contents.fixes) ≡ relr_size contents }
{}

/// The object has as many bytes as the file's size says, where the same holds, the bytes of the sections are as many as theirs, and no part passes 2^64.
pub fn file_has_its_size()
    ensures { (contents : Contents) (code : SectionBytes) → FitsSections contents code → AlignsInPages contents
        → PacksBehind (starts_of contents) contents.fixes → EndsInside (starts_of contents)
        → length (object_bytes (starts_of contents) contents code) ≡ file_size (starts_of contents) }
{}

/// The words of the packed table name the places that they were made from, each once and in order, to a reader of the table.
pub fn packed_places_read_back()
    ensures { (places : List ℕ) → AreAscending 0 places → NamePlaces 0 (relr_words places) places }
{}
