//! From files to images.

ghost use Rattle.std.specs.Prelude.{◌≡◌, ◌≢◌, ℕ, Bool, false, Ok, List, Contains};
ghost use Rattle.ld_base.specs.declared.object.Object.{Object};
ghost use Rattle.ld_base.specs.declared.object.Reloc.{Reloc};
ghost use Rattle.ld_base.specs.declared.parts.HashTable.{HashTable};
ghost use Rattle.elf_object.specs.Spells.{Spells};
ghost use Rattle.elf_object.specs.Verdict.{object_verdict};
ghost use Rattle.seg_image.specs.Accepted.{Accepted};
ghost use Rattle.history_state.specs.Accepted.{IsAccepted, AcceptsOnly};
ghost use Rattle.history_state.specs.Setting.{Machine};

use elf_dynamic::accepted_tables;
use elf_head::accepted_head;
use elf_object::one_object;
use seg_image::pages_hold_segments;

/// An object that a file spells is one of which an image can be made and relocated, and so is each
/// object that is read of a file.
pub fn one_image()
    ensures spelled { (bytes : List ℕ) (program : Bool) (object : Object) → Spells bytes program object → Accepted object }
    ensures read { (bytes : List ℕ) (program : Bool) (object : Object) (table : HashTable) → object_verdict bytes program ≡ Ok (object, table)
        → Accepted object }
{
    elf_head::one_verdict();
    accepted_head();
    accepted_tables();
    one_object();
}

/// Such an object has what the history's laws ask: each slot's relocation is of the type of slots, and
/// the word that the file has for the slot leads to code; a variable of thread-local storage has a
/// segment, and this segment and the arrays of functions are well formed. So a machine whose verdict is
/// the reader's accepts no other objects. And no library has a relocation that copies (R_RISCV_COPY is 4);
/// one of the program names a symbol other than the null symbol.
pub fn accepted_object()
    ensures spelled { (bytes : List ℕ) (program : Bool) (o : Object) → Spells bytes program o → IsAccepted o }
    ensures read { (bytes : List ℕ) (program : Bool) (o : Object) (table : HashTable) → object_verdict bytes program ≡ Ok (o, table) → IsAccepted o }
    ensures machine { (m : Machine) → m.verdict ≡ object_verdict → AcceptsOnly m }
    ensures library { (bytes : List ℕ) (o : Object) (table : HashTable) → object_verdict bytes false ≡ Ok (o, table) → (r : Reloc) → Contains o.relocs r
        → r.kind ≢ 4 }
    ensures copied { (bytes : List ℕ) (program : Bool) (o : Object) (table : HashTable) → object_verdict bytes program ≡ Ok (o, table)
        → (r : Reloc) → Contains o.relocs r → r.kind ≡ 4 → r.symbol ≢ 0 }
{
    elf_head::one_verdict();
    accepted_head();
    accepted_tables();
    one_object();
    pages_hold_segments();
    one_image();
}
