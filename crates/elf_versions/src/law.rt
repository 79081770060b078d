//! What a verdict on version tables means.

ghost use Rattle.std.specs.Prelude.{◌≡◌, ◌↔◌, ℕ, Ok, Err, List};
ghost use Rattle.ld_base.specs.declared.fault.NotAccepted.{NotAccepted};
ghost use Rattle.ld_base.specs.declared.parts.DynParts.{DynParts};
ghost use Rattle.ld_base.specs.declared.parts.Head.{Head};
ghost use Rattle.ld_base.specs.declared.parts.Versions.{Versions};
ghost use Rattle.elf_versions.specs.Spells.{BreaksFirst, SpellsVersions};
ghost use Rattle.elf_versions.specs.Verdict.{versions_verdict};

use elf_head::one_reading;

/// The tables of an object have one verdict: either they break no rule, and one record alone has what
/// they say, or one rule is the first that they break, with one number.
pub fn one_verdict()
    ensures accepted { (bytes : List ℕ) (head : Head) (parts : DynParts) (versions : Versions)
        → (versions_verdict bytes head parts ≡ Ok versions) ↔ SpellsVersions bytes head parts versions }
    ensures refused { (bytes : List ℕ) (head : Head) (parts : DynParts) (fault : NotAccepted)
        → (versions_verdict bytes head parts ≡ Err fault) ↔ BreaksFirst bytes head parts fault }
{
    one_reading();
}
