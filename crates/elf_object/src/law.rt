//! What it is to be an object.

ghost use Rattle.std.specs.Prelude.{◌≡◌, ◌↔◌, ◌⊎◌, ℕ, Bool, Ok, Err, List, IsTrue};
ghost use Rattle.ld_base.specs.declared.fault.NotAccepted.{NotAccepted};
ghost use Rattle.ld_base.specs.declared.object.Object.{Object};
ghost use Rattle.ld_base.specs.declared.parts.HashTable.{HashTable};
ghost use Rattle.sym_hash.specs.Reached.{IsTableOf};
ghost use Rattle.elf_object.specs.Object.{names_own_symbols};
ghost use Rattle.elf_object.specs.Spells.{Broken, Spells};
ghost use Rattle.elf_object.specs.Verdict.{object_verdict};

/// Every file has one verdict: either it is an object, and one alone, or one rule is the first that it
/// breaks, with one number. An object's hash tables are its own, and each of its relocations names
/// one of its symbols.
pub fn one_object()
    ensures verdict { (bytes : List ℕ) (program : Bool) (object : Object)
        → ((table : HashTable) × (object_verdict bytes program ≡ Ok (object, table))) ↔ Spells bytes program object }
    ensures one { (bytes : List ℕ) (program : Bool) (first second : Object) → Spells bytes program first → Spells bytes program second → first ≡ second }
    ensures exactly { (bytes : List ℕ) (program : Bool)
        → ((object : Object) × Spells bytes program object) ⊎ ((fault : NotAccepted) × Broken bytes program fault) }
    ensures never_both { (bytes : List ℕ) (program : Bool) (object : Object) (fault : NotAccepted) → Spells bytes program object → Broken bytes program fault
        → ⊥ }
    ensures one_fault { (bytes : List ℕ) (program : Bool) (first second : NotAccepted) → Broken bytes program first → Broken bytes program second
        → first ≡ second }
    ensures refused { (bytes : List ℕ) (program : Bool) (fault : NotAccepted) → (object_verdict bytes program ≡ Err fault) ↔ Broken bytes program fault }
    ensures table { (bytes : List ℕ) (program : Bool) (object : Object) (table : HashTable) → object_verdict bytes program ≡ Ok (object, table)
        → IsTableOf table object }
    ensures names { (bytes : List ℕ) (program : Bool) (object : Object) (table : HashTable) → object_verdict bytes program ≡ Ok (object, table)
        → IsTrue (names_own_symbols object) }
{
    elf_head::one_verdict();
    elf_dynamic::one_verdict();
    elf_dynamic::accepted_tables();
    elf_versions::one_verdict();
    sym_hash::one_verdict();
}
