//! The laws.

ghost use Rattle.std.specs.Prelude.{◌≡◌, pos, ℕ, List, [], ◌∷◌, Some, None, codes};
ghost use Rattle.ld_base.specs.declared.object.Kind.TheVariants.{Dyn};
ghost use Rattle.ld_base.specs.declared.parts.Head.{Head};
ghost use Rattle.elf_head.specs.Verdict.{SpellsHead};
ghost use Rattle.asm_layout.specs.Examples.{library, program};
ghost use Rattle.asm_layout.specs.AsmDenotes.Denotes.{Denotes};
ghost use Rattle.asm_accepted.specs.AsmRecord.Record.{head_of, record_of};

use asm_laws::{
    objects_are_whole, parts_end_low, sections_are_small, sources_are_short, the_head_is_spelled,
};

/// The head that an object spells which a source denotes, if it breaks no rule of the head, is the one that the statements say.
pub fn the_head_is_said()
    ensures { (source bytes : List ℕ) → (denotes : Denotes source bytes) → (head : Head) → SpellsHead bytes head → head ≡ head_of denotes.lines }
{
    sources_are_short();
    sections_are_small();
    parts_end_low();
    objects_are_whole();
    the_head_is_spelled();
}

/// A program that calls another object's function, worked by hand: its entry, the library that it needs, its symbols, the relocations of a
/// name and of a place of its own, and its slot.
pub fn worked_program()
    ensures kind { (record_of program).kind ≡ Dyn }
    ensures entry { (record_of program).entry ≡ 0x1030 }
    ensures needed { (record_of program).needed ≡ codes "libf.so" ∷ [] }
    ensures symbols { (record_of program).symbols
        ≡ record { name = []; info = 0; other = 0; shndx = 0; value = 0; size = 0; version = 0 }
        ∷ record { name = codes "f"; info = 0x10; other = 0; shndx = 0; value = 0; size = 0; version = 0 } ∷ [] }
    ensures relocs { (record_of program).relocs
        ≡ record { place = 0x3018; kind = 2; symbol = 1; addend = pos 0 } ∷ record { place = 0x3020; kind = 3; symbol = 0; addend = pos 0x3020 } ∷ [] }
    ensures slot { (record_of program).plt_relocs ≡ record { place = 0x3010; kind = 5; symbol = 1; addend = pos 0 } ∷ [] }
    ensures slot_words { (record_of program).pltgot ≡ Some 0x3000 }
    ensures dynamic { (record_of program).dynamic ≡ 0x2000 }
{}

/// A library with a constructor and a thread-local word: its name, its symbols, the relocation of the word's offset, the constructor's
/// place, and the block that each thread begins with.
pub fn worked_library()
    ensures soname { (record_of library).soname ≡ Some (codes "l") }
    ensures symbols { (record_of library).symbols
        ≡ record { name = []; info = 0; other = 0; shndx = 0; value = 0; size = 0; version = 0 }
        ∷ record { name = codes "f"; info = 0x12; other = 0; shndx = 1; value = 0x1000; size = 12; version = 0 } ∷ [] }
    ensures first { (record_of library).first_exported ≡ 1 }
    ensures relocs { (record_of library).relocs ≡ record { place = 0x20f0; kind = 11; symbol = 0; addend = pos 0 } ∷ [] }
    ensures constructors { (record_of library).init_array ≡ Some (record { start = 0x20f8; size = 8 }) }
    ensures relr { (record_of library).relr ≡ 0x20f8 ∷ [] }
    ensures tls { (record_of library).tls ≡ Some (record { vaddr = 0x2100; filesz = 8; memsz = 8; align = 1 }) }
    ensures no_slot { (record_of library).pltgot ≡ None }
    ensures versions { (record_of library).verdefs ≡ [] }
{}
