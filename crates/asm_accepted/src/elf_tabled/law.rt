//! The laws.

ghost use Rattle.std.specs.Prelude.{◌≡◌, ◌+◌, ◌∷◌, Bool, List, ℕ, length};
ghost use Rattle.ld_base.specs.declared.object.Reloc.{Reloc};
ghost use Rattle.ld_base.specs.declared.object.Symbol.{Symbol};
ghost use Rattle.ld_base.specs.declared.parts.DynParts.{DynParts};
ghost use Rattle.elf_dynamic.specs.Parts.{AreRelocs, AreSymbols, AreWords, NamePlaces};
ghost use Rattle.elf_dynamic.specs.Verdict.{SpellsDynamic};
ghost use Rattle.asm_write.specs.declared.contents.Contents.{Contents};
ghost use Rattle.asm_write.specs.declared.contents.Fix.{Fix};
ghost use Rattle.asm_write.specs.declared.contents.SectionBytes.{SectionBytes};
ghost use Rattle.asm_write.specs.declared.contents.SymbolEntry.{SymbolEntry};
ghost use Rattle.asm_write.specs.declared.starts.Starts.{Starts};
ghost use Rattle.asm_write.specs.Starts.{starts_of};
ghost use Rattle.asm_write.specs.Values.{object_bytes, packed_places, rela_bytes, relr_bytes, symbol_bytes};
ghost use Rattle.asm_laws.specs.ElfWritten.Placed.{AreAscending};
ghost use Rattle.asm_laws.specs.ElfSpelled.Said.{AreSaidBy, TellsNumbers, said_head};
ghost use Rattle.asm_laws.specs.ElfSpelled.Whole.{IsWhole};
ghost use Rattle.asm_accepted.specs.ElfTabled.Tables.{AreSymbolNumbers, ListedFit, SaysNames, SaysSymbol, SymbolsFit, null_entry, said_relocs, said_slots};

use asm_laws::{
    packed_places_read_back, packed_table_has_its_size, parts_have_their_sizes, parts_stand_apart,
    parts_stand_at_their_starts, the_table_tells, the_tags_are_spelled,
};

/// The relocations that a reader finds in the bytes of their table are those of the places that are told by one.
pub fn the_table_of_relocations()
    ensures { (contents : Contents) → ListedFit (starts_of contents) contents.fixes → (relocs : List Reloc)
        → AreRelocs (rela_bytes (starts_of contents) contents.fixes) relocs → relocs ≡ said_relocs contents }
{}

/// The relocations that an accepted object says are those of the places that are told by one.
pub fn the_relocations_are_spelled()
    ensures { (contents : Contents) (code : SectionBytes) → IsWhole contents code → TellsNumbers contents → ListedFit (starts_of contents) contents.fixes
        → (program : Bool) (said : DynParts) → SpellsDynamic (object_bytes (starts_of contents) contents code) (said_head contents) program said
        → said.relocs ≡ said_relocs contents }
{
    parts_have_their_sizes();
    parts_stand_apart();
    parts_stand_at_their_starts();
    the_table_tells();
    the_tags_are_spelled();
}

/// The slots that it says are one for each symbol that has one, in order.
pub fn the_slots_are_spelled()
    ensures { (contents : Contents) (code : SectionBytes) → IsWhole contents code → TellsNumbers contents → AreSymbolNumbers contents.slots
        → (program : Bool) (said : DynParts) → SpellsDynamic (object_bytes (starts_of contents) contents code) (said_head contents) program said
        → said.plt_relocs ≡ said_slots contents }
{
    parts_have_their_sizes();
    parts_stand_apart();
    parts_stand_at_their_starts();
    the_table_tells();
    the_tags_are_spelled();
}

/// Its own name and those of the libraries that it needs are the strings at the offsets that it has.
pub fn the_names_are_spelled()
    ensures { (contents : Contents) (code : SectionBytes) → IsWhole contents code → TellsNumbers contents → (program : Bool) (said : DynParts)
        → SpellsDynamic (object_bytes (starts_of contents) contents code) (said_head contents) program said → SaysNames contents said }
{
    parts_have_their_sizes();
    parts_stand_apart();
    parts_stand_at_their_starts();
    the_table_tells();
    the_tags_are_spelled();
}

/// Of as many symbols as there are, the null symbol counted, the reader finds that one and then each other, with the string at its name's offset.
pub fn the_table_of_symbols()
    ensures { (starts : Starts) (entries : List SymbolEntry) (strings : List ℕ) (read : List Symbol) → SymbolsFit starts entries
        → AreSymbols (symbol_bytes starts entries) strings (1 + length entries) read → AreSaidBy (SaysSymbol starts strings) (null_entry ∷ entries) read }
{}

/// The words of a packed table name one list of places.
pub fn words_name_one_list()
    ensures { (words : List ℕ) (next : ℕ) (one other : List ℕ) → NamePlaces next words one → NamePlaces next words other → one ≡ other }
{}

/// The places that a reader finds in the bytes of the packed table are those that it was made from.
pub fn the_table_of_packed_places()
    ensures { (starts : Starts) (fixes : List Fix) → AreAscending 0 (packed_places starts fixes) → (words places : List ℕ)
        → AreWords (relr_bytes starts fixes) words → NamePlaces 0 words places → places ≡ packed_places starts fixes }
{
    packed_places_read_back();
}

/// The packed places that an accepted object says are those that are packed, in order.
pub fn the_packed_places_are_spelled()
    ensures { (contents : Contents) (code : SectionBytes) → IsWhole contents code → TellsNumbers contents
        → AreAscending 0 (packed_places (starts_of contents) contents.fixes) → (program : Bool) (said : DynParts)
        → SpellsDynamic (object_bytes (starts_of contents) contents code) (said_head contents) program said
        → said.relr ≡ packed_places (starts_of contents) contents.fixes }
{
    packed_places_read_back();
    packed_table_has_its_size();
    parts_stand_apart();
    parts_stand_at_their_starts();
    the_table_tells();
    the_tags_are_spelled();
}
