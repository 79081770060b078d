//! Where the parts of an object start.

ghost use Rattle.std.specs.Prelude.{◌≡◌, ◌+◌, ◌-◌, IfOk, map, slice_index};
ghost use Rattle.asm_write.specs.declared.part.Part.TheVariants as parts;
ghost use Rattle.asm_write.specs.Parts.{number_of, all_parts};
ghost use Rattle.asm_write.specs.Starts.{start_in, size_in, address_in, padding, starts_from, wrapped, packed_from, third_starts, relr_size, extent_of};
ghost use Rattle.asm_write.specs.Starts.{base_of};

use crate::contents::{Contents, Extent, Fix, Spot};
use crate::dynamic::is_packed;
use crate::part::Part;
use crate::relr::relr_words;
use crate::sizes::plain_extents;
use ld_base::{Kind, Longs};
use std::alloc::{AllocError, Global};

/// The parts before the packed table.
const HEAD_PARTS: [Part; 9] = [
    Part::Head,
    Part::GnuHash,
    Part::SysvHash,
    Part::Symbols,
    Part::Strings,
    Part::Versym,
    Part::Verdef,
    Part::Verneed,
    Part::Rela,
];

/// The parts behind it.
const PARTS_BEHIND: [Part; 15] = [
    Part::Jmprel,
    Part::Rodata,
    Part::Plt,
    Part::Text,
    Part::Dynamic,
    Part::Got,
    Part::PreinitArray,
    Part::InitArray,
    Part::FiniArray,
    Part::Relro,
    Part::Tdata,
    Part::Tbss,
    Part::GotPlt,
    Part::Data,
    Part::Bss,
];

/// The parts from the third segment on.
const THIRD_PARTS: [Part; 11] = [
    Part::Dynamic,
    Part::Got,
    Part::PreinitArray,
    Part::InitArray,
    Part::FiniArray,
    Part::Relro,
    Part::Tdata,
    Part::Tbss,
    Part::GotPlt,
    Part::Data,
    Part::Bss,
];

/// Where each part starts and how many bytes it has, in the order in which they stand.
#[derive(Drop)]
pub struct Starts {
    pub addresses: Longs,
    pub sizes: Longs,
}

impl Starts {
    ghost use Rattle.std.specs.Prelude.{◌≡◌};
    ghost use Rattle.asm_write.specs.Starts.{start_in, size_in, address_in};

    /// Where a part starts.
    pub fn part(&self, part: Part) -> u64
        ensures { result ≡ start_in self.now part }
    {
        self.addresses
            .as_slice()
            .get(part.number())
            .copied()
            .unwrap_or(0)
    }

    /// How many bytes a part has.
    pub fn size(&self, part: Part) -> u64
        ensures { result ≡ size_in self.now part }
    {
        self.sizes
            .as_slice()
            .get(part.number())
            .copied()
            .unwrap_or(0)
    }

    /// The address of a place, modulo 2^64.
    pub fn address(&self, spot: Spot) -> u64
        ensures { result ≡ address_in self.now spot }
    {
        self.part(spot.part).wrapping_add(spot.offset)
    }
}

/// How many bytes stand between an address and the next multiple of an alignment.
fn padding(address: u64, alignment: u64) -> u64
    ensures { result ≡ padding address alignment }
{
    if alignment == 0 {
        0
    } else {
        (alignment - address % alignment) % alignment
    }
}

/// Where parts start that stand behind an address. Want of memory is told where an address passes
/// 64 bits, too.
fn starts_from(alloc: Global, behind: u64, extents: &[Extent]) -> Result<Vec<u64>, AllocError>
    ensures { IfOk result (λ starts. starts.items ≡ starts_from behind extents.now) }
{
    let mut starts = Vec::new(alloc);
    let mut end = behind;
    for extent in extents {
        let Some(start) = end.checked_add(padding(end, extent.align)) else {
            return Err(AllocError);
        };
        let Some(next) = start.checked_add(extent.size) else {
            return Err(AllocError);
        };
        starts.push(start)?;
        end = next;
    }
    Ok(starts)
}

/// The address of a packed place, as far as it is behind the start of the third segment.
fn place_from_third(starts: &[u64], spot: Spot) -> u64
    ensures { result ≡ wrapped (slice_index starts.now (number_of spot.part - number_of parts.Dynamic) + spot.offset) }
{
    let number = spot.part.number().saturating_sub(Part::Dynamic.number());
    let start = starts.get(number).copied().unwrap_or(0);
    start.wrapping_add(spot.offset)
}

/// The packed places, each as far as it is behind the start of the third segment.
fn packed_from_third(alloc: Global, starts: &[u64], fixes: &[Fix]) -> Result<Vec<u64>, AllocError>
    ensures { IfOk result (λ places. places.items ≡ packed_from starts.now fixes.now) }
{
    let mut places = Vec::new(alloc);
    for fix in fixes {
        if is_packed(fix.way) {
            places.push(place_from_third(starts, fix.spot))?;
        }
    }
    Ok(places)
}

/// Where the parts from the third segment on start, as far as they are behind its start.
#[tactic(auto, unfolding(crate::specs::Starts::third_starts))]
fn third_starts(alloc: Global, contents: &Contents) -> Result<Vec<u64>, AllocError>
    ensures { IfOk result (λ starts. starts.items ≡ third_starts contents.now) }
{
    let extents = plain_extents(alloc, contents, &THIRD_PARTS)?;
    starts_from(alloc, 0, &extents)
}

/// How many bytes the packed table has.
#[tactic(auto, unfolding(crate::specs::Starts::relr_size))]
fn relr_size(alloc: Global, contents: &Contents) -> Result<u64, AllocError>
    ensures { IfOk result (λ size. size ≡ relr_size contents.now) }
{
    let starts = third_starts(alloc, contents)?;
    let places = packed_from_third(alloc, &starts, contents.fixes.as_slice())?;
    let words = relr_words(alloc, &places)?;
    match 8u64.checked_mul(words.len() as u64) {
        Some(size) => Ok(size),
        None => Err(AllocError),
    }
}

/// The extents of the parts.
#[tactic(auto, unfolding(crate::specs::Starts::size_of, crate::specs::Starts::align_of))]
fn extents_of(alloc: Global, contents: &Contents) -> Result<Vec<Extent>, AllocError>
    ensures { IfOk result (λ extents. extents.items ≡ map (extent_of contents.now) all_parts) }
{
    let size = relr_size(alloc, contents)?;
    let mut extents = plain_extents(alloc, contents, &HEAD_PARTS)?;
    extents.push(Extent { size, align: 8 })?;
    let rest = plain_extents(alloc, contents, &PARTS_BEHIND)?;
    extents.extend_from_slice(&rest)?;
    Ok(extents)
}

fn base_of(kind: Kind) -> u64
    ensures { result ≡ base_of kind }
{
    match kind {
        Kind::Exec => 0x1_0000,
        Kind::Dyn => 0,
    }
}

impl Starts {
    ghost use Rattle.std.specs.Prelude.{◌≡◌, IfOk};
    ghost use Rattle.asm_write.specs.Starts.{starts_of};

    /// Those of an object that holds this.
    ///
    /// # Errors
    ///
    /// Want of memory, which is told where an address passes 64 bits, too.
    #[tactic(auto, unfolding(crate::specs::Starts::starts_of))]
    pub fn of(alloc: Global, contents: &Contents) -> Result<Self, AllocError>
        ensures { IfOk result (λ starts. starts ≡ starts_of contents.now) }
    {
        let extents = extents_of(alloc, contents)?;
        let addresses = starts_from(alloc, base_of(contents.kind), &extents)?;
        let sizes = sizes_of(alloc, &extents)?;
        Ok(Starts {
            addresses: addresses.into(),
            sizes: sizes.into(),
        })
    }
}

fn sizes_of(alloc: Global, extents: &[Extent]) -> Result<Vec<u64>, AllocError>
    ensures { IfOk result (λ sizes. sizes.items ≡ map (λ extent. extent.size) extents.now) }
{
    extents.iter().map(|extent| extent.size).collect(alloc)
}
