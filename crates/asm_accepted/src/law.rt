//! The laws.

ghost use Rattle.std.specs.Prelude.{◌≡◌, Bool, List, ℕ};
ghost use Rattle.ld_base.specs.declared.fault.NotAccepted.{NotAccepted};
ghost use Rattle.ld_base.specs.declared.object.Object.{Object};
ghost use Rattle.ld_base.specs.declared.parts.DynParts.{DynParts};
ghost use Rattle.elf_dynamic.specs.Verdict.{SpellsDynamic};
ghost use Rattle.elf_object.specs.Spells.{Broken, Spells};
ghost use Rattle.asm_write.specs.declared.contents.Contents.{Contents};
ghost use Rattle.asm_write.specs.declared.contents.SectionBytes.{SectionBytes};
ghost use Rattle.asm_write.specs.Starts.{starts_of};
ghost use Rattle.asm_write.specs.Values.{object_bytes};
ghost use Rattle.asm_laws.specs.ElfSpelled.Said.{said_head};
ghost use Rattle.asm_laws.specs.ElfSpelled.Whole.{IsWhole};
ghost use Rattle.asm_accepted.specs.ElfHashed.Hashes.{FitsTables};
ghost use Rattle.asm_layout.specs.AsmDenotes.Denotes.{Denotes};
ghost use Rattle.asm_accepted.specs.AsmRecord.Record.{record_of};
ghost use Rattle.asm_accepted.specs.Strings.{NamesAreStrings};

use crate::asm_fields::{names_stand_at_their_offsets, numbers_fit_their_fields};
use crate::asm_hashed::{hash_tables_count_symbols, hash_tables_fit};
use crate::asm_packed::packed_places_ascend;
use crate::asm_record::the_head_is_said;
use crate::asm_versioned::versions_lead_on;
use crate::elf_accepted::the_object_is_spelled;
use crate::elf_hashed::{the_symbols_are_counted, the_symbols_are_spelled};
use asm_laws::{
    objects_are_whole, parts_end_low, parts_have_their_sizes, parts_stand_apart,
    parts_stand_at_their_starts, sources_are_short, the_head_is_spelled, the_table_tells,
    the_tags_are_spelled,
};
use elf_object::one_object;

/// The name of an accepted object, those of the libraries that it needs and those of its symbols are strings of its table, each at its
/// offset: a reader refuses an object of whose names one isn't, as is one of 4,096 bytes or more.
pub fn the_names_are_strings()
    ensures { (contents : Contents) (code : SectionBytes) → IsWhole contents code → FitsTables contents → (program : Bool) (said : DynParts)
        → SpellsDynamic (object_bytes (starts_of contents) contents code) (said_head contents) program said → NamesAreStrings contents said }
{
    parts_have_their_sizes();
    parts_stand_apart();
    parts_stand_at_their_starts();
    the_symbols_are_counted();
    the_symbols_are_spelled();
    the_table_tells();
    the_tags_are_spelled();
}

/// What a reader makes of bytes that a source denotes, if it accepts them, as the program or as another object, is the record that the
/// statements of the source say, with no field left out. The reader's rules know nothing of sources, nor of how objects are written: so the
/// bytes are what an independent reader accepts as the record of the statements.
pub fn the_object_is_the_record()
    ensures { (source bytes : List ℕ) → (denotes : Denotes source bytes) → (program : Bool) (object : Object)
        → Spells bytes program object → object ≡ record_of denotes.lines }
{
    hash_tables_count_symbols();
    hash_tables_fit();
    names_stand_at_their_offsets();
    numbers_fit_their_fields();
    objects_are_whole();
    packed_places_ascend();
    parts_end_low();
    sources_are_short();
    the_head_is_said();
    the_head_is_spelled();
    the_names_are_strings();
    the_object_is_spelled();
    versions_lead_on();
}

/// Bytes that a source denotes and that break no rule of objects are spelled by the record that its statements say.
pub fn unbroken_bytes_spell_the_record()
    ensures { (source bytes : List ℕ) → (denotes : Denotes source bytes) → (program : Bool) → ((fault : NotAccepted) → Broken bytes program fault → ⊥)
        → Spells bytes program (record_of denotes.lines) }
{
    one_object();
    the_object_is_the_record();
}
