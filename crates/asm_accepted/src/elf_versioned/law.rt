//! The laws.

ghost use Rattle.std.specs.Prelude.{Bool};
ghost use Rattle.ld_base.specs.declared.parts.DynParts.{DynParts};
ghost use Rattle.ld_base.specs.declared.parts.Versions.{Versions};
ghost use Rattle.elf_dynamic.specs.Verdict.{SpellsDynamic};
ghost use Rattle.elf_versions.specs.Spells.{SpellsVersions};
ghost use Rattle.asm_write.specs.declared.contents.Contents.{Contents};
ghost use Rattle.asm_write.specs.declared.contents.SectionBytes.{SectionBytes};
ghost use Rattle.asm_write.specs.Starts.{starts_of};
ghost use Rattle.asm_write.specs.Values.{object_bytes};
ghost use Rattle.asm_laws.specs.ElfSpelled.Said.{said_head};
ghost use Rattle.asm_laws.specs.ElfSpelled.Whole.{IsWhole};
ghost use Rattle.asm_accepted.specs.ElfHashed.Hashes.{FitsTables};
ghost use Rattle.asm_accepted.specs.ElfVersioned.Linked.{LinksVersions};
ghost use Rattle.asm_accepted.specs.ElfVersioned.Said.{SaysVersions};

use crate::elf_hashed::the_symbols_are_counted;
use asm_laws::{
    parts_have_their_sizes, parts_stand_apart, parts_stand_at_their_starts, the_table_tells,
    the_tags_are_spelled,
};

/// The versions that an accepted object says are those that it was made of, where each record leads to the next.
pub fn the_versions_are_spelled()
    ensures { (contents : Contents) (code : SectionBytes) → IsWhole contents code → FitsTables contents → LinksVersions contents
        → (program : Bool) (said : DynParts) → SpellsDynamic (object_bytes (starts_of contents) contents code) (said_head contents) program said
        → (versions : Versions) → SpellsVersions (object_bytes (starts_of contents) contents code) (said_head contents) said versions
        → SaysVersions contents versions }
{
    parts_have_their_sizes();
    parts_stand_apart();
    parts_stand_at_their_starts();
    the_symbols_are_counted();
    the_table_tells();
    the_tags_are_spelled();
}
