//! What it is to be a table of each kind.

ghost use Rattle.std.specs.Prelude.{◌≡◌, ◌↔◌, ℕ, List, Some};
ghost use Rattle.ld_base.specs.declared.parts.Tag.{Tag};
ghost use Rattle.elf_head.specs.DynTable.Tag.{tags_of, EndsAtNull};
ghost use Rattle.elf_head.specs.DynTable.Name.{string_at, IsStringAt};

/// Every table has one reading: at most one list stands for it, each entry at its own place.
pub fn one_reading()
    ensures tags { (bytes : List ℕ) (tags : List Tag) → (tags_of bytes ≡ Some tags) ↔ EndsAtNull bytes tags }
    ensures string { (strings name : List ℕ) (offset : ℕ) → (string_at strings offset ≡ Some name) ↔ IsStringAt strings offset name }
{}
