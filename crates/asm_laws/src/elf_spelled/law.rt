//! The laws.

ghost use Rattle.std.specs.Prelude.{◌≡◌, ◌-◌, List};
ghost use Rattle.ld_base.specs.declared.parts.DynParts.{DynParts};
ghost use Rattle.ld_base.specs.declared.parts.Head.{Head};
ghost use Rattle.ld_base.specs.declared.parts.Tag.{Tag};
ghost use Rattle.elf_dynamic.specs.Parts.{AreParts, AreTags};
ghost use Rattle.elf_head.specs.Verdict.{SpellsHead};
ghost use Rattle.asm_write.specs.declared.contents.Contents.{Contents};
ghost use Rattle.asm_write.specs.declared.contents.SectionBytes.{SectionBytes};
ghost use Rattle.asm_write.specs.declared.part.Part.{Part};
ghost use Rattle.asm_write.specs.declared.part.Part.TheVariants as parts;
ghost use Rattle.asm_write.specs.Starts.{start_in, starts_of};
ghost use Rattle.asm_write.specs.Values.{object_bytes, part_bytes};
ghost use Rattle.asm_laws.specs.ElfRecords.Standing.{StandAt};
ghost use Rattle.asm_laws.specs.ElfSpelled.Said.{IsTold, SaysByItself, TellsNumbers, said_head, said_tags};
ghost use Rattle.asm_laws.specs.ElfSpelled.Whole.{IsWhole};

use crate::elf_written::{packed_table_has_its_size, parts_have_their_sizes, parts_stand_apart};

/// The bytes of each part stand in the object as far behind its begin as the part starts behind the first.
pub fn parts_stand_at_their_starts()
    ensures { (contents : Contents) (code : SectionBytes) → IsWhole contents code → (part : Part)
        → StandAt (object_bytes (starts_of contents) contents code) (start_in (starts_of contents) part - start_in (starts_of contents) parts.Head)
        (part_bytes (starts_of contents) contents code part) }
{
    packed_table_has_its_size();
    parts_have_their_sizes();
    parts_stand_apart();
}

/// The head that such an object spells, if it breaks no rule of the head, is the one that it is to have.
pub fn the_head_is_spelled()
    ensures { (contents : Contents) (code : SectionBytes) → IsWhole contents code → (head : Head)
        → SpellsHead (object_bytes (starts_of contents) contents code) head → head ≡ said_head contents }
{
    parts_stand_at_their_starts();
}

/// The entries of the dynamic table that such an object has, if it has one that ends, are those that it is to have.
pub fn the_tags_are_spelled()
    ensures { (contents : Contents) (code : SectionBytes) → IsWhole contents code → TellsNumbers contents → (tags : List Tag)
        → AreTags (object_bytes (starts_of contents) contents code) (said_head contents).headers tags → tags ≡ said_tags contents }
{
    parts_have_their_sizes();
    parts_stand_apart();
    parts_stand_at_their_starts();
}

/// What these entries tell of each tag that a linker minds.
pub fn the_table_tells()
    ensures { (contents : Contents) → IsTold contents (said_tags contents) }
{}

/// The parts that such an object's tables say: where the slots' words and the arrays of functions stand, that no function is named alone, and
/// the flags are those that it is to have.
pub fn the_table_says_by_itself()
    ensures { (contents : Contents) (code : SectionBytes) → IsWhole contents code → TellsNumbers contents → (said : DynParts)
        → AreParts (object_bytes (starts_of contents) contents code) (said_head contents).headers said → SaysByItself contents said }
{
    the_tags_are_spelled();
}
