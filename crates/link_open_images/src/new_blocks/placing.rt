//! The place and the words of a new block.

ghost use Rattle.std.specs.Prelude.{◌≡◌, ℕ, ◌+◌, ◌*◌, ◌<◌, ◌≤◌, ◌^◌, IfErr, IfOk};
ghost use Rattle.address_space.specs.Pages.{Fits, IsFirstFit};
ghost use Rattle.history_state.specs.Storage.{pages_for, residue};
ghost use Rattle.link_open_images.specs.NewBlocks.Laws.{area_alone};
ghost use Rattle.link_open_images.specs.NewBlocks.Placing.{IsBlockFault, IsNewBlock};
ghost use Rattle.link_open_images.specs.declared.new_blocks.placing.BlockFault.TheVariants.{Memory, NoRoom as Full};

use crate::area_images::area_image;
use address_space::{NoRoom, Regions};
use history_calls::{Installs, SlotWords};
use ld_base::TlsSeg;
use seg_image::{Image, Images};
use std::alloc::{AllocError, Global};

/// The bytes of a page.
const PAGE_SIZE: u64 = 4096;

/// A block that a hart is to get.
#[derive(Drop)]
pub struct NewBlock {
    /// Where its pages begin.
    pub start: u64,
    /// How many they are.
    pub pages: u64,
    /// Where the block itself begins.
    pub address: u64,
    /// The words of the pages.
    pub installs: Installs,
}

/// Why there is no block.
#[derive(Clone, Copy, PartialEq, Eq)]
pub enum BlockFault {
    /// So many pages have no room.
    NoRoom(u64),
    /// Want of memory.
    Memory,
}

impl From<AllocError> for BlockFault {
    ghost from_gives = { λ _ fault. fault ≡ Memory };

    fn from(_: AllocError) -> Self {
        BlockFault::Memory
    }
}

impl From<NoRoom> for BlockFault {
    ghost from_gives = { λ error fault. fault ≡ Full error.0 };

    fn from(error: NoRoom) -> Self {
        BlockFault::NoRoom(error.0)
    }
}

/// A block for this segment of thread-local storage, in the first pages that have room, which begins with
/// these bytes.
///
/// # Errors
///
/// The pages that have no room, or want of memory.
pub fn new_block(
    alloc: Global,
    regions: &Regions,
    segment: TlsSeg,
    bytes: &[u8],
) -> Result<NewBlock, BlockFault>
    requires align { segment.align ≤ 2 ^ 20 }
    requires memory { segment.memsz ≤ 2 ^ 20 }
    ensures ok { IfOk result (IsNewBlock regions.now segment bytes.now) }
    ensures err { IfErr result (IsBlockFault regions.now segment) }
{
    let residue = residue(segment);
    let pages = pages_for(residue + segment.memsz);
    let start = reserve(regions, pages, segment.align.max(PAGE_SIZE))?;
    let address = start + residue;
    let image = area_image(alloc, start, pages, address, bytes)?;
    let installs = installs_of(alloc, image)?;
    Ok(NewBlock {
        start,
        pages,
        address,
        installs,
    })
}

/// The first pages that have room.
fn reserve(regions: &Regions, pages: u64, align: u64) -> Result<u64, NoRoom>
    requires some { 0 < pages }
    requires align { 0 < align }
    ensures first { IfOk result (IsFirstFit regions.now pages align) }
    ensures low { IfOk result (λ start. start + 4096 * pages ≤ 2 ^ 32) }
    ensures full { IfErr result (λ e. (e.0 ≡ pages) × ((at : ℕ) → ¬ (Fits regions.now pages align at))) }
{
    let mut regions = regions.copy();
    regions.reserve(pages, align)
}

/// How far behind the start of its pages a block begins.
fn residue(segment: TlsSeg) -> u64
    ensures value { result ≡ residue segment }
    ensures short { segment.align ≤ 2 ^ 20 → result < 2 ^ 20 }
{
    if segment.align == 0 {
        0
    } else {
        segment.vaddr % segment.align
    }
}

/// The pages that so many bytes take.
fn pages_for(bytes: u64) -> u64
    requires { bytes ≤ 2 ^ 32 }
    ensures value { result ≡ pages_for bytes }
    ensures some { 0 < result }
{
    ((bytes + (PAGE_SIZE - 1)) / PAGE_SIZE).max(1)
}

/// One area.
///
/// # Errors
///
/// Want of memory.
fn installs_of(alloc: Global, image: Image) -> Result<Installs, AllocError>
    ensures { IfOk result (λ installs. installs ≡ area_alone image) }
{
    let mut areas = Images::new(alloc);
    areas.push(image)?;
    Ok(Installs {
        images: Images::new(alloc),
        slots: SlotWords::new(alloc),
        areas,
    })
}
