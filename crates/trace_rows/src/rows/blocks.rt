//! Blocks of thread-local storage.

ghost use Rattle.std.specs.Prelude.{◌≡◌, ◌==◌, ◌↔◌, ◌≤◌, ◌^◌, IfOk, IsTrue};
ghost use Rattle.std.specs.List.{list_any};
ghost use Rattle.history_event.specs.declared.event.Event.TheVariants.{Tls};
ghost use Rattle.history_state.specs.State.{State};
ghost use Rattle.history_state.specs.Storage.{tls_block};
ghost use Rattle.trace_replay.specs.Shown.{IsShown};
ghost use Rattle.trace_rows.specs.Blocks.{IsPlaced, PlacesOf};
ghost use Rattle.trace_rows.specs.Rows.{IsDecided};

use crate::rows::all;
use address_space::{NoRoom, Regions};
use history_event::Module;
use ld_base::{HartId, Serial, TlsSeg};
use link_search::block_in;
use std::alloc::AllocError;
use trace_replay::{Replay, block_pages, block_residue};

/// The bytes of a page.
const PAGE_SIZE: u64 = 4096;

/// Whether a hart may get its block of an object's module at this address.
///
/// # Errors
///
/// Want of memory.
pub(crate) fn may_have_block(
    replay: &Replay,
    hart: HartId,
    owner: Serial,
    address: u64,
) -> Result<bool, AllocError>
    ensures { IfOk result (λ may. IsDecided replay.now (Tls hart owner address) may) }
{
    let block = block_of(replay, hart, owner)?;
    let is_there = has_module(replay.modules().as_slice(), owner);
    let stands = stands_at(replay, owner, address);
    Ok(all(&[block.is_none(), is_there, stands]))
}

/// Where a hart has its block of an object's module, if it has one.
///
/// # Errors
///
/// Want of memory.
pub(crate) fn block_of(
    replay: &Replay,
    hart: HartId,
    serial: Serial,
) -> Result<Option<u64>, AllocError>
    ensures { IfOk result (λ block. (s : State) → IsShown s replay.now → block ≡ tls_block s hart serial) }
{
    block_in(
        replay.ranges(),
        replay.modules(),
        replay.blocks(),
        hart,
        serial,
    )
}

/// Whether an object has a module.
fn has_module(modules: &[Module], serial: Serial) -> bool
    ensures { result ≡ list_any (λ m. m.serial == serial) modules.now }
{
    modules.iter().any(|module| module.serial == serial)
}

/// Whether a new block of a mapped object's storage would stand at this address.
fn stands_at(replay: &Replay, serial: Serial, address: u64) -> bool
    ensures { IsTrue result ↔ IsPlaced replay.now serial address }
{
    let Some(segment) = replay.segment(serial) else {
        return false;
    };
    match place(replay.regions(), segment) {
        Ok(start) => start == address,
        Err(_) => false,
    }
}

/// Where a new block of a segment would stand.
///
/// # Errors
///
/// That no pages have room for it, with their number.
pub(crate) fn place(regions: &Regions, segment: TlsSeg) -> Result<u64, NoRoom>
    requires align { segment.align ≤ 2 ^ 20 }
    requires memory { segment.memsz ≤ 2 ^ 20 }
    ensures { PlacesOf regions.now segment result }
{
    let mut regions = regions.copy();
    let pages = block_pages(segment);
    let start = regions.reserve(pages, segment.align.max(PAGE_SIZE))?;
    Ok(start + block_residue(segment))
}
