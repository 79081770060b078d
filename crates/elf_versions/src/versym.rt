//! The version indexes of symbols (Drepper, "ELF Symbol Versioning").

ghost use Rattle.std.specs.Prelude.{◌≡◌, ◌*◌, ◌≤◌, IfOk, length};
ghost use Rattle.elf_head.specs.AcceptancePart.Gives.{Gives};
ghost use Rattle.elf_head.specs.AcceptancePart.Table.{table};
ghost use Rattle.ld_base.specs.Field.{field};
ghost use Rattle.elf_versions.specs.Versym.{versym_of};

use crate::records::Records;
use elf_head::{DT_VERSYM, last_of};
use ld_base::{ReadFault, Shorts, Tag, field16};
use std::alloc::{AllocError, Global};

/// So many 16-bit words, one after another.
fn shorts_of(alloc: Global, bytes: &[u8], count: u32) -> Result<Shorts, AllocError>
    requires { 2 * count ≤ length bytes.now }
    ensures { IfOk result (λ shorts. shorts ≡ table (field 2 bytes.now) 0 2 count) }
{
    let mut shorts = Vec::with_capacity(alloc, count as usize)?;
    for index in 0..count as usize {
        shorts.push(field16(bytes, 2 * index))?;
    }
    Ok(Shorts::from(shorts))
}

/// The entries of so many symbols (rule 17).
#[tactic(auto, unfolding(crate::specs::Versym::versym_of))]
pub(crate) fn read_versym(
    alloc: Global,
    records: &Records,
    tags: &[Tag],
    count: u32,
) -> Result<Shorts, ReadFault>
    ensures { Gives result (versym_of records.now tags.now count) }
{
    let Some(start) = last_of(tags, DT_VERSYM) else {
        return Ok(Shorts::new(alloc));
    };
    let part = records.bytes_at(start, 2 * u64::from(count))?;
    Ok(shorts_of(alloc, part, count)?)
}
