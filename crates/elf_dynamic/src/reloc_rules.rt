//! What is asked of the relocations that aren't slots (psABI, "Relocations").

ghost use Rattle.std.specs.Prelude.{◌≡◌, ◌<◌, ◌≤◌, ◌^◌, [], None, false, length, map, MatchResult};
ghost use Rattle.elf_dynamic.specs.Judged.{rela_broken, reloc_broken, FaultIs, IsJudged};
ghost use Rattle.elf_dynamic.specs.Memory.{AreLow};
ghost use Rattle.elf_dynamic.specs.Named.{doubleword, named_by, size_of};
ghost use Rattle.elf_dynamic.specs.Relr.{begins_odd, relr_places, relr_words};
ghost use Rattle.elf_dynamic.specs.Rules.{bad_rela, bad_reloc, is_bad_place, is_bad_reloc, is_misplaced};

use crate::apart::Apart;
use crate::feature::{R_RISCV_COPY, R_RISCV_NONE};
use crate::memory::in_writable;
use crate::reader::broken;
use crate::relr::{Judged, judge_packed};
use elf_head::R_RISCV_JUMP_SLOT;
use ld_base::{Header, Places, ReadFault, Reloc, Span, Symbol};
use std::alloc::Global;

/// The bytes of a doubleword.
pub(crate) const DOUBLEWORD: u64 = 8;

/// Judges the relocations of DT_RELA, and then packed ones (rule 14).
#[tactic(auto, unfolding(crate::specs::Rules::bad_reloc), using(crate::proofs::Reading::first_fault))]
pub(crate) fn judge_relocs(
    alloc: Global,
    headers: &[Header],
    symbols: &[Symbol],
    relocs: &[Reloc],
    packed: &[u8],
) -> Result<Judged, ReadFault>
    requires low { AreLow headers.now }
    requires short { length packed.now ≤ 8_388_608 }
    requires few { length relocs.now < 2 ^ 32 }
    ensures { MatchResult result
        (λ judged. (bad_reloc headers.now symbols.now relocs.now (begins_odd (relr_words packed.now)) (relr_places packed.now) ≡ None)
        × IsJudged headers.now (map (named_by symbols.now) relocs.now) (relr_places packed.now) judged)
        (λ fault. FaultIs (reloc_broken headers.now symbols.now relocs.now packed.now) fault) }
{
    let judged = judge_rela(alloc, headers, symbols, relocs)?;
    judge_packed(headers, packed, judged, relocs.len() as u64)
}

/// Judges the relocations of DT_RELA (rule 14): none is bad by itself, or names a byte that one
/// before it names.
#[tactic(auto, using(crate::proofs::Ranges::low_reloc))]
fn judge_rela(
    alloc: Global,
    headers: &[Header],
    symbols: &[Symbol],
    relocs: &[Reloc],
) -> Result<Judged, ReadFault>
    requires { AreLow headers.now }
    ensures { MatchResult result
        (λ judged. (bad_rela headers.now symbols.now relocs.now ≡ None) × IsJudged headers.now (map (named_by symbols.now) relocs.now) [] judged)
        (λ fault. FaultIs (rela_broken headers.now symbols.now relocs.now) fault) }
{
    let mut apart = Apart::new(alloc);
    for (index, reloc) in relocs.iter().enumerate() {
        if is_bad_reloc(headers, symbols, *reloc) {
            return Err(broken(14, index as u64));
        }
        let put = apart.put(named_by(symbols, *reloc))?;
        if !put {
            return Err(broken(14, index as u64));
        }
    }
    Ok(Judged {
        named: apart.named,
        places: Places::new(alloc),
        count: 0,
    })
}

/// Whether the relocation is of a symbol that isn't there, of a type that it can't be of, or of a
/// bad place.
fn is_bad_reloc(headers: &[Header], symbols: &[Symbol], reloc: Reloc) -> bool
    ensures { result ≡ is_bad_reloc headers.now symbols.now reloc }
{
    reloc.symbol as usize >= symbols.len()
        || reloc.kind == R_RISCV_JUMP_SLOT
        || (reloc.kind == R_RISCV_COPY && reloc.symbol == 0)
        || is_misplaced(headers, symbols, reloc)
}

/// Whether the relocation's place is bad for its type.
fn is_misplaced(headers: &[Header], symbols: &[Symbol], reloc: Reloc) -> bool
    ensures { result ≡ is_misplaced headers.now symbols.now reloc }
{
    match reloc.kind {
        R_RISCV_NONE => false,
        R_RISCV_COPY => !in_writable(headers, named_by(symbols, reloc)),
        _ => is_bad_place(headers, reloc.place),
    }
}

/// Whether the place isn't one of a doubleword: a multiple of 8 in writable memory.
pub(crate) fn is_bad_place(headers: &[Header], place: u64) -> bool
    ensures { result ≡ is_bad_place headers.now place }
{
    place % DOUBLEWORD != 0 || !in_writable(headers, doubleword(place))
}

/// The bytes that the relocation names.
pub(crate) fn named_by(symbols: &[Symbol], reloc: Reloc) -> Span
    ensures { result ≡ named_by symbols.now reloc }
{
    let size = match reloc.kind {
        R_RISCV_NONE => 0,
        R_RISCV_COPY => size_of(symbols, reloc.symbol),
        _ => DOUBLEWORD,
    };
    Span {
        start: reloc.place,
        size,
    }
}

/// The size of a symbol, 0 where there is none of this index.
fn size_of(symbols: &[Symbol], index: u32) -> u64
    ensures { result ≡ size_of symbols.now index }
{
    match symbols.get(index as usize) {
        Some(symbol) => symbol.size,
        None => 0,
    }
}

/// The doubleword at a place.
pub(crate) fn doubleword(place: u64) -> Span
    ensures { result ≡ doubleword place }
{
    Span {
        start: place,
        size: DOUBLEWORD,
    }
}
