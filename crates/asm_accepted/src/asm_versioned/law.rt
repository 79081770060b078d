//! The laws.

ghost use Rattle.std.specs.Prelude.{List, ℕ};
ghost use Rattle.asm_accepted.specs.ElfVersioned.Linked.{LinksVersions};
ghost use Rattle.asm_layout.specs.Contents.{contents_of};
ghost use Rattle.asm_layout.specs.AsmDenotes.Denotes.{Denotes};

use asm_laws::parts_are_within_the_object;

/// Each record of the versions of an object that a source denotes leads to the next one, and its numbers fit their fields.
pub fn versions_lead_on()
    ensures { (source bytes : List ℕ) → (denotes : Denotes source bytes) → LinksVersions (contents_of denotes.lines) }
{
    parts_are_within_the_object();
}
