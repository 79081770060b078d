//! The laws.

ghost use Rattle.std.specs.Prelude.{◌≡◌, Bool};
ghost use Rattle.ld_base.specs.declared.object.Object.{Object};
ghost use Rattle.elf_object.specs.Spells.{Spells};
ghost use Rattle.asm_write.specs.declared.contents.Contents.{Contents};
ghost use Rattle.asm_write.specs.declared.contents.SectionBytes.{SectionBytes};
ghost use Rattle.asm_write.specs.Starts.{starts_of};
ghost use Rattle.asm_write.specs.Values.{object_bytes, packed_places};
ghost use Rattle.asm_laws.specs.ElfWritten.Placed.{AreAscending};
ghost use Rattle.asm_laws.specs.ElfSpelled.Whole.{IsWhole};
ghost use Rattle.asm_accepted.specs.ElfHashed.Hashes.{FitsTables};
ghost use Rattle.asm_accepted.specs.ElfHashed.Said.{said_tables};
ghost use Rattle.asm_accepted.specs.ElfVersioned.Linked.{LinksVersions};
ghost use Rattle.asm_accepted.specs.ElfAccepted.Said.{SaysObject};

use crate::elf_hashed::{the_hash_tables_are_spelled, the_symbols_are_spelled};
use crate::elf_tabled::{
    the_names_are_spelled, the_packed_places_are_spelled, the_relocations_are_spelled,
    the_slots_are_spelled,
};
use crate::elf_versioned::the_versions_are_spelled;
use asm_laws::{the_head_is_spelled, the_table_says_by_itself, the_tags_are_spelled};

/// The object that a file with these contents is, if it is one, is what the contents say, as the program and as another object; so are its hash tables.
pub fn the_object_is_spelled()
    ensures { (contents : Contents) (code : SectionBytes) → IsWhole contents code → FitsTables contents → LinksVersions contents
        → AreAscending 0 (packed_places (starts_of contents) contents.fixes) → (program : Bool) (object : Object)
        → (spells : Spells (object_bytes (starts_of contents) contents code) program object)
        → SaysObject contents code object × (spells.table ≡ said_tables contents) }
{
    the_head_is_spelled();
    the_tags_are_spelled();
    the_table_says_by_itself();
    the_names_are_spelled();
    the_relocations_are_spelled();
    the_slots_are_spelled();
    the_packed_places_are_spelled();
    the_hash_tables_are_spelled();
    the_symbols_are_spelled();
    the_versions_are_spelled();
}
