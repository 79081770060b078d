//! Closings.

ghost use Rattle.std.specs.Prelude.{◌≡◌, ◌<◌, ◌++◌, IfOk, OnOk};

use history_journal::LawfulJournal;
use ld_base::Serial;
use link_lists::LoadRecord;
use link_spaces::PendingClosings;
use std::alloc::{AllocError, Global};

/// Room for a closing that waits, for its event, and for that of its unmapping.
///
/// # Errors
///
/// Want of memory.
pub fn room_for_closing(
    closings: &mut PendingClosings,
    journal: &mut LawfulJournal,
) -> Result<(), AllocError>
    ensures closings { closings.new.closings ≡ closings.old.closings }
    ensures spare { OnOk result (0 < closings.new.spare) }
    ensures harts { journal.new.harts ≡ journal.old.harts }
    ensures events { journal.new.events ≡ journal.old.events }
    ensures room { OnOk result (1 < journal.new.spare) }
{
    closings.make_room()?;
    journal.make_room(2)
}

/// The objects that startup loaded, and the roots that stay.
///
/// # Errors
///
/// Want of memory.
pub fn fixed_roots(alloc: Global, loads: &LoadRecord) -> Result<Vec<Serial>, AllocError>
    ensures { IfOk result (λ roots. roots.items ≡ loads.now.startup ++ loads.now.pinned) }
{
    let mut roots = Vec::from_slice(alloc, loads.startup())?;
    roots.extend_from_slice(loads.pinned())?;
    Ok(roots)
}
