//! Relocations with addends (gABI, "Relocation").

ghost use Rattle.std.specs.Prelude.{◌≡◌, ◌+◌, ◌≤◌, length, IfOk};
ghost use Rattle.elf_head.specs.DynTable.Reloc.{reloc_at, relocs_of};

use ld_base::{Reloc, Relocs, field64};
use std::alloc::{AllocError, Global};

/// The address of a function, for a slot of the procedure linkage table.
pub const R_RISCV_JUMP_SLOT: u32 = 5;

/// The bytes of one entry.
pub const RELOC_SIZE: u64 = 24;

/// The relocation at a place.
#[tactic(auto, unfolding(crate::specs::DynTable::Reloc::reloc_at))]
fn reloc_at(bytes: &[u8], at: usize) -> Reloc
    requires { at + 24 ≤ length bytes.now }
    ensures { result ≡ reloc_at bytes.now at }
{
    let info = field64(bytes, at + 8);
    Reloc {
        place: field64(bytes, at),
        kind: (info % (1 << 32)) as u32,
        symbol: (info / (1 << 32)) as u32,
        addend: field64(bytes, at + 16).cast_signed(),
    }
}

/// All whole entries of a table of relocations, in order.
#[tactic(auto, unfolding(crate::specs::DynTable::Reloc::relocs_of))]
pub fn read_relocs(alloc: Global, bytes: &[u8]) -> Result<Relocs, AllocError>
    ensures { IfOk result (λ relocs. relocs ≡ relocs_of bytes.now) }
{
    let count = bytes.len() / RELOC_SIZE as usize;
    let mut relocs = Vec::with_capacity(alloc, count)?;
    for index in 0..count {
        relocs.push(reloc_at(bytes, RELOC_SIZE as usize * index))?;
    }
    Ok(Relocs::from(relocs))
}
