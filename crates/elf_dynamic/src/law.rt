//! What a verdict on the dynamic table and its tables means.

ghost use Rattle.std.specs.Prelude.{◌≡◌, ◌↔◌, ℕ, Bool, List, Ok, Err};
ghost use Rattle.ld_base.specs.declared.fault.NotAccepted.{NotAccepted};
ghost use Rattle.ld_base.specs.declared.parts.DynParts.{DynParts};
ghost use Rattle.ld_base.specs.declared.parts.Head.{Head};
ghost use Rattle.elf_dynamic.specs.Keeps.{Keeps};
ghost use Rattle.elf_dynamic.specs.Rules.{dynamic_verdict};
ghost use Rattle.elf_dynamic.specs.Verdict.{BreaksFirst, SpellsDynamic};

use elf_head::one_reading;

/// The tables of a file have one verdict: either they break no rule, and one record alone has what
/// they say, or one rule is the least that they break, with one number.
pub fn one_verdict()
    ensures accepted { (bytes : List ℕ) (head : Head) (program : Bool) (parts : DynParts)
        → (dynamic_verdict bytes head program ≡ Ok parts) ↔ SpellsDynamic bytes head program parts }
    ensures refused { (bytes : List ℕ) (head : Head) (program : Bool) (fault : NotAccepted)
        → (dynamic_verdict bytes head program ≡ Err fault) ↔ BreaksFirst bytes head program fault }
{
    one_reading();
}

/// Tables that break no rule: their relocations name symbols that are there, and bytes of writable
/// memory of which none is named twice; no segment may be written and run.
pub fn accepted_tables()
    ensures { (bytes : List ℕ) (head : Head) (program : Bool) (parts : DynParts) → SpellsDynamic bytes head program parts → Keeps bytes head.headers parts }
{}
