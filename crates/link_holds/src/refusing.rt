//! Refusals, and the copies that are kept.

ghost use Rattle.std.specs.Prelude.{◌≡◌, ◌<◌, IfOk, OnOk};
ghost use Rattle.history_journal.specs.LinkHarts.Kept.{fault_of};

use history_journal::{KeptFaults, LawfulJournal};
use ld_base::{DlFault, HartId};
use link_lists::Copied;
use std::alloc::{AllocError, Global};

/// A copy of the refusal that is kept for a hart.
///
/// # Errors
///
/// Want of memory.
pub fn kept_copy(
    alloc: Global,
    kept: &KeptFaults,
    hart: HartId,
) -> Result<Option<DlFault>, AllocError>
    ensures { IfOk result (λ copy. copy ≡ fault_of hart kept.now.kept) }
{
    match kept.find(hart) {
        Some(fault) => Ok(Some(fault.copy(alloc)?)),
        None => Ok(None),
    }
}

/// Room for a refusal and its event, and a copy of it.
///
/// # Errors
///
/// Want of memory.
pub fn room_for_refusal(
    alloc: Global,
    kept: &mut KeptFaults,
    journal: &mut LawfulJournal,
    fault: &DlFault,
) -> Result<DlFault, AllocError>
    ensures copy { IfOk result (λ copy. copy ≡ fault.now) }
    ensures kept { kept.new.kept ≡ kept.old.kept }
    ensures kept_room { OnOk result (0 < kept.new.spare) }
    ensures harts { journal.new.harts ≡ journal.old.harts }
    ensures events { journal.new.events ≡ journal.old.events }
    ensures room { OnOk result (0 < journal.new.spare) }
{
    kept.make_room()?;
    let copy = fault.copy(alloc)?;
    journal.make_room(1)?;
    Ok(copy)
}
