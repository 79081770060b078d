//! Refusals that are kept.

ghost use Rattle.std.specs.Prelude.{◌≡◌, ◌∷◌, ◌++◌, [], filter, OnErr, OnOk};
ghost use Rattle.history_journal.specs.LinkHarts.Kept.{is_anothers};
ghost use Rattle.trace_replay.specs.Steps.{kept_of_open, kept_of_sym};

use history_event::{OpenAnswer, SymAnswer};
use history_journal::KeptFaults;
use ld_base::{DlFault, HartId};
use link_lists::Copied;
use std::alloc::{AllocError, Global};

/// The refusal of an opening is kept, if it is refused.
///
/// # Errors
///
/// Want of memory. Nothing has changed then.
pub(crate) fn keep_open(
    alloc: Global,
    kept: &mut KeptFaults,
    hart: HartId,
    answer: &OpenAnswer,
) -> Result<(), AllocError>
    ensures ok { OnOk result (kept.new.kept ≡ kept_of_open hart answer.now kept.old.kept) }
    ensures err { OnErr result (kept.new.kept ≡ kept.old.kept) }
{
    match answer {
        OpenAnswer::Refused(fault) => keep(alloc, kept, hart, fault),
        OpenAnswer::Done { .. } | OpenAnswer::Absent => Ok(()),
    }
}

/// The refusal of a look-up is kept, if it is refused.
///
/// # Errors
///
/// Want of memory. Nothing has changed then.
pub(crate) fn keep_sym(
    alloc: Global,
    kept: &mut KeptFaults,
    hart: HartId,
    answer: &SymAnswer,
) -> Result<(), AllocError>
    ensures ok { OnOk result (kept.new.kept ≡ kept_of_sym hart answer.now kept.old.kept) }
    ensures err { OnErr result (kept.new.kept ≡ kept.old.kept) }
{
    match answer {
        SymAnswer::Refused(fault) => keep(alloc, kept, hart, fault),
        SymAnswer::Found(_, _, _) => Ok(()),
    }
}

/// A call of a hart is refused, and the refusal kept for it.
///
/// # Errors
///
/// Want of memory. Nothing has changed then.
pub(crate) fn keep(
    alloc: Global,
    kept: &mut KeptFaults,
    hart: HartId,
    fault: &DlFault,
) -> Result<(), AllocError>
    ensures ok { OnOk result (kept.new.kept ≡ filter (is_anothers hart) kept.old.kept ++ record { hart = hart; fault = fault.now } ∷ []) }
    ensures err { OnErr result (kept.new.kept ≡ kept.old.kept) }
{
    kept.make_room()?;
    let fault = fault.copy(alloc)?;
    kept.keep(hart, fault);
    Ok(())
}
