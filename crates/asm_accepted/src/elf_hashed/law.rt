//! The laws.

ghost use Rattle.std.specs.Prelude.{◌≡◌, Bool, length};
ghost use Rattle.ld_base.specs.declared.parts.DynParts.{DynParts};
ghost use Rattle.elf_head.specs.DynTable.HashWords.{hash_words};
ghost use Rattle.elf_dynamic.specs.Verdict.{SpellsDynamic};
ghost use Rattle.asm_write.specs.declared.contents.Contents.{Contents};
ghost use Rattle.asm_write.specs.declared.contents.SectionBytes.{SectionBytes};
ghost use Rattle.asm_write.specs.Sizes.{symbol_count};
ghost use Rattle.asm_write.specs.Starts.{starts_of};
ghost use Rattle.asm_write.specs.Values.{object_bytes};
ghost use Rattle.asm_laws.specs.ElfSpelled.Said.{said_head, said_tags};
ghost use Rattle.asm_laws.specs.ElfSpelled.Whole.{IsWhole};
ghost use Rattle.asm_accepted.specs.ElfHashed.Hashes.{FitsTables, HashesFit};
ghost use Rattle.asm_accepted.specs.ElfHashed.Said.{SaysSymbols, said_tables};

use crate::elf_tabled::{the_relocations_are_spelled, the_slots_are_spelled, the_table_of_symbols};
use asm_laws::{
    parts_have_their_sizes, parts_stand_apart, parts_stand_at_their_starts, the_table_tells,
    the_tags_are_spelled,
};

/// The hash tables that a reader finds are those that the object has.
pub fn the_hash_tables_are_spelled()
    ensures { (contents : Contents) (code : SectionBytes) → IsWhole contents code → HashesFit contents
        → hash_words (object_bytes (starts_of contents) contents code) (said_head contents).headers (said_tags contents) ≡ said_tables contents }
{
    parts_have_their_sizes();
    parts_stand_apart();
    parts_stand_at_their_starts();
    the_table_tells();
}

/// An accepted object says that it has as many symbols as it has, the null symbol counted.
pub fn the_symbols_are_counted()
    ensures { (contents : Contents) (code : SectionBytes) → IsWhole contents code → FitsTables contents → (program : Bool) (said : DynParts)
        → SpellsDynamic (object_bytes (starts_of contents) contents code) (said_head contents) program said
        → length said.symbols ≡ symbol_count contents }
{
    the_hash_tables_are_spelled();
    the_relocations_are_spelled();
    the_slots_are_spelled();
    the_table_tells();
    the_tags_are_spelled();
}

/// The symbols that it says are those, each with the string at its name's offset; the GNU hash table tells the first exported one.
pub fn the_symbols_are_spelled()
    ensures { (contents : Contents) (code : SectionBytes) → IsWhole contents code → FitsTables contents → (program : Bool) (said : DynParts)
        → SpellsDynamic (object_bytes (starts_of contents) contents code) (said_head contents) program said → SaysSymbols contents said }
{
    parts_have_their_sizes();
    parts_stand_apart();
    parts_stand_at_their_starts();
    the_hash_tables_are_spelled();
    the_symbols_are_counted();
    the_table_of_symbols();
    the_table_tells();
    the_tags_are_spelled();
}
