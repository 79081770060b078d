//! What a verdict on hash tables means.

ghost use Rattle.std.specs.Prelude.{◌≡◌, ◌↔◌, ℕ, Ok, Err, List, Some, length};
ghost use Rattle.std.specs.List.{slice_get};
ghost use Rattle.ld_base.specs.declared.fault.NotAccepted.{NotAccepted};
ghost use Rattle.ld_base.specs.declared.object.Symbol.{Symbol};
ghost use Rattle.ld_base.specs.declared.parts.DynParts.{DynParts};
ghost use Rattle.ld_base.specs.declared.parts.HashTable.{HashTable};
ghost use Rattle.ld_base.specs.declared.parts.Head.{Head};
ghost use Rattle.sym_hash.specs.Breaks.{BreaksHash, IsHashTable};
ghost use Rattle.sym_hash.specs.Reached.{IsTableFor};
ghost use Rattle.sym_hash.specs.Verdict.{hash_verdict};

/// The hash tables of an object have one verdict: either they are those of its symbols, or they break
/// the rule with one number. The versions of symbols make no difference.
pub fn one_verdict()
    ensures accepted { (bytes : List ℕ) (head : Head) (parts : DynParts) (t : HashTable)
        → (hash_verdict bytes head parts ≡ Ok t) ↔ IsHashTable bytes head parts t }
    ensures refused { (bytes : List ℕ) (head : Head) (parts : DynParts) (fault : NotAccepted)
        → (hash_verdict bytes head parts ≡ Err fault) ↔ BreaksHash bytes head parts fault }
    ensures versions { (t : HashTable) (symbols others : List Symbol) (first : ℕ) → length others ≡ length symbols
        → ((i : ℕ) (s : Symbol) → slice_get others i ≡ Some s → slice_get symbols i ≡ Some (record s { version = 0 })) → IsTableFor t symbols first
        → IsTableFor t others first }
{}
