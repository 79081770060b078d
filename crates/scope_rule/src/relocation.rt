//! What a relocation refers to, by its type (psABI, "Relocations").

ghost use Rattle.std.specs.Prelude.{◌≡◌};
ghost use Rattle.scope_rule.specs.Relocation.{has_no_symbol, is_copy};

use ld_base::Reloc;

const R_RISCV_NONE: u32 = 0;

const R_RISCV_RELATIVE: u32 = 3;

const R_RISCV_COPY: u32 = 4;

/// Whether it is of no symbol, whichever it names.
pub fn has_no_symbol(reloc: &Reloc) -> bool
    ensures { result ≡ has_no_symbol reloc.now }
{
    reloc.kind == R_RISCV_NONE || reloc.kind == R_RISCV_RELATIVE
}

/// Whether it copies the definition of its symbol, which is then another object's.
pub fn is_copy(reloc: &Reloc) -> bool
    ensures { result ≡ is_copy reloc.now }
{
    reloc.kind == R_RISCV_COPY
}
