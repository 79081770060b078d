//! Blocks of thread-local storage.

ghost use Rattle.std.specs.Prelude.{◌≡◌, ◌+◌, ◌≤◌, [], ◌∷◌, ◌++◌, map, OnOk, OnErr};
ghost use Rattle.address_space.specs.Pages.{AllFree};
ghost use Rattle.history_event.specs.declared.event.Event.TheVariants.{Tls};
ghost use Rattle.history_event.specs.declared.event.Purpose.TheVariants.{Block as ForBlock};
ghost use Rattle.history_journal.specs.Following.{MayFollow};
ghost use Rattle.history_state.specs.Areas.{free_pages};
ghost use Rattle.link_spaces.specs.PendingClosingsPart.Pending.{HaveRoomOf, with_more};

use history_event::{Event, Purpose};
use history_journal::LawfulJournal;
use ld_base::{HartId, Serial};
use link_lists::LateBlocks;
use link_open_images::NewBlock;
use link_spaces::{PendingClosings, ReservedPages};
use std::alloc::AllocError;

/// The hart has a new block, in pages that are free: their range, the block and its event are put at the ends of
/// the lists, with room for so many events, this one among them, and with room for the range in each closing
/// that waits, which may hand it out.
///
/// # Errors
///
/// Want of memory. Nothing but room has changed then.
pub fn store_block(
    reserved: &mut ReservedPages,
    blocks: &mut LateBlocks,
    closings: &mut PendingClosings,
    journal: &mut LawfulJournal,
    hart: HartId,
    serial: Serial,
    block: &NewBlock,
    events: usize,
) -> Result<(), AllocError>
    requires some { 1 ≤ events }
    requires free { AllFree (free_pages reserved.old.ranges) block.now.start block.now.pages }
    requires may { MayFollow journal.old.harts journal.old.events (Tls hart serial block.now.address) }
    ensures ranges { OnOk result (reserved.new.ranges
        ≡ reserved.old.ranges ++ record { address = block.now.start; pages = block.now.pages; purpose = ForBlock hart serial } ∷ []) }
    ensures no_range { OnErr result (reserved.new.ranges ≡ reserved.old.ranges) }
    ensures blocks { OnOk result (blocks.new.blocks ≡ blocks.old.blocks ++ record { hart = hart; serial = serial; address = block.now.address } ∷ []) }
    ensures no_block { OnErr result (blocks.new.blocks ≡ blocks.old.blocks) }
    ensures closings { HaveRoomOf closings.old.closings closings.new.closings }
    ensures closing_room { OnOk result (closings.new.closings ≡ map with_more closings.old.closings) }
    ensures harts { journal.new.harts ≡ journal.old.harts }
    ensures events { OnOk result (journal.new.events ≡ journal.old.events ++ Tls hart serial block.now.address ∷ []) }
    ensures no_event { OnErr result (journal.new.events ≡ journal.old.events) }
    ensures room { OnOk result (events ≤ journal.new.spare + 1) }
{
    reserved.make_room(1)?;
    blocks.make_room()?;
    journal.make_room(events)?;
    closings.make_room_in_each()?;
    reserved.push(block.start, block.pages, Purpose::Block(hart, serial));
    blocks.push(hart, serial, block.address);
    journal.push(Event::Tls {
        hart,
        owner: serial,
        address: block.address,
    });
    Ok(())
}
