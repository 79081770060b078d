//! Blocks of thread-local storage.

ghost use Rattle.std.specs.Prelude.{◌≡◌, ◌==◌, find, Some, IfOk};
ghost use Rattle.history_state.specs.State.{State};
ghost use Rattle.history_state.specs.Storage.{is_static_area, tls_block};
ghost use Rattle.link_search.specs.Blocks.{ShowsBlocks, static_at};

use history_event::{Module, Purpose, Range};
use ld_base::{HartId, Serial};
use link_lists::LateBlocks;
use std::alloc::AllocError;
use tls_blocks::TlsModules;

/// The module of an object.
fn module_in(modules: &[Module], serial: Serial) -> Option<Module>
    ensures { result ≡ find (λ m. m.serial == serial) modules.now }
{
    for module in modules {
        if module.serial == serial {
            return Some(*module);
        }
    }
    None
}

/// Where a hart has its block of an object's module, by the ranges that are reserved, the modules, and the
/// blocks that harts got late; none where there is no such module, or no such block yet.
///
/// # Errors
///
/// Want of memory, where an address would be longer than 64 bits.
pub fn block_in(
    ranges: &[Range],
    modules: &TlsModules,
    blocks: &LateBlocks,
    hart: HartId,
    serial: Serial,
) -> Result<Option<u64>, AllocError>
    ensures { IfOk result (λ block. (s : State) → ShowsBlocks s ranges.now modules.now blocks.now → block ≡ tls_block s hart serial) }
{
    let Some(found) = module_in(modules.as_slice(), serial) else {
        return Ok(None);
    };
    match found.offset {
        Some(offset) => static_block(ranges, modules.tp(), hart, offset),
        None => Ok(blocks.find(hart, serial)),
    }
}

/// A hart's block at an offset behind its tp, which stands so far behind the start of its static area.
fn static_block(
    ranges: &[Range],
    tp: u64,
    hart: HartId,
    offset: u64,
) -> Result<Option<u64>, AllocError>
    ensures { IfOk result (λ block. block ≡ Some (static_at ranges.now tp hart offset)) }
{
    let Some(area) = static_area(ranges, hart) else {
        return Ok(Some(offset));
    };
    let Some(start) = area.address.checked_add(tp) else {
        return Err(AllocError);
    };
    match start.checked_add(offset) {
        Some(block) => Ok(Some(block)),
        None => Err(AllocError),
    }
}

/// A hart's static area.
fn static_area(ranges: &[Range], hart: HartId) -> Option<Range>
    ensures { result ≡ find (λ r. is_static_area hart r.purpose) ranges.now }
{
    for range in ranges {
        if is_static_area(range.purpose, hart) {
            return Some(*range);
        }
    }
    None
}

/// Whether pages for this are a hart's static area.
fn is_static_area(purpose: Purpose, hart: HartId) -> bool
    ensures { result ≡ is_static_area hart purpose }
{
    match purpose {
        Purpose::StaticTls(owner) => owner == hart,
        Purpose::Object(_) | Purpose::Stack(_) | Purpose::Block(_, _) => false,
    }
}
