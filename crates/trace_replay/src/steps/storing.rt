//! Blocks of thread-local storage.

ghost use Rattle.std.specs.Prelude.{◌≡◌, ◌∷◌, ◌++◌, ◌-◌, [], ◌≤◌, ◌^◌, Some, OnErr, OnOk};
ghost use Rattle.address_space.specs.Pages.{AllFree};
ghost use Rattle.history_state.specs.Areas.{free_pages};
ghost use Rattle.history_state.specs.Step.{block_range};
ghost use Rattle.history_state.specs.Storage.{block_pages, residue};
ghost use Rattle.ld_base.specs.declared.object.TlsSeg.{TlsSeg as segment};
ghost use Rattle.trace_replay.specs.Inside.{lists_of};
ghost use Rattle.trace_replay.specs.Steps.{HasPages, storage_in, stored};

use crate::blocks::{block_pages, block_residue};
use crate::tables::Tables;
use history_event::Purpose;
use ld_base::{HartId, Serial, TlsSeg};
use link_spaces::{ReservedPages, object_in};
use scope_rule::Namespace;
use std::alloc::AllocError;

/// A hart gets a block of an object's module, with its pages.
///
/// # Errors
///
/// Want of memory. Nothing has changed then.
pub(crate) fn store(
    tables: &mut Tables,
    hart: HartId,
    serial: Serial,
    address: u64,
) -> Result<(), AllocError>
    requires { (seg : segment) → storage_in tables.old.namespaces.items serial ≡ Some seg → HasPages (lists_of tables.old) address seg }
    ensures ok { OnOk result (lists_of tables.new ≡ stored hart serial address (lists_of tables.old)) }
    ensures heads { tables.new.heads ≡ tables.old.heads }
    ensures err { OnErr result (lists_of tables.new ≡ lists_of tables.old) }
{
    tables.blocks.make_room()?;
    if let Some(segment) = storage_in(tables.namespaces.as_slice(), serial) {
        reserve(&mut tables.reserved, hart, serial, address, segment)?;
    }
    tables.blocks.push(hart, serial, address);
    Ok(())
}

/// The segment of thread-local storage of a mapped object.
pub(crate) fn storage_in(namespaces: &[Namespace], serial: Serial) -> Option<TlsSeg>
    ensures { result ≡ storage_in namespaces.now serial }
{
    match object_in(namespaces, serial) {
        Some(object) => object.object.tls,
        None => None,
    }
}

/// The pages of a block are reserved.
///
/// # Errors
///
/// Want of memory. Nothing has changed then.
fn reserve(
    reserved: &mut ReservedPages,
    hart: HartId,
    serial: Serial,
    address: u64,
    segment: TlsSeg,
) -> Result<(), AllocError>
    requires align { segment.align ≤ 2 ^ 20 }
    requires memory { segment.memsz ≤ 2 ^ 20 }
    requires stands { residue segment ≤ address }
    requires free { AllFree (free_pages reserved.old.ranges) (address - residue segment) (block_pages segment) }
    ensures ok { OnOk result (reserved.new.ranges ≡ reserved.old.ranges ++ block_range hart serial address segment ∷ []) }
    ensures err { OnErr result (reserved.new.ranges ≡ reserved.old.ranges) }
{
    reserved.make_room(1)?;
    let start = address - block_residue(segment);
    reserved.push(start, block_pages(segment), Purpose::Block(hart, serial));
    Ok(())
}
