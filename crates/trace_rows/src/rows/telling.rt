//! What harts write and are told, and how they end.

ghost use Rattle.std.specs.Prelude.{◌≡◌, ◌==◌, ◌↔◌, ℕ, Some, IsTrue};
ghost use Rattle.std.specs.List.{list_any};
ghost use Rattle.history_event.specs.declared.event.Event.TheVariants.{Ended, Told, Wrote};
ghost use Rattle.history_event.specs.declared.hart_end.HartEnd.{HartEnd};
ghost use Rattle.history_journal.specs.Following.{machine_of};
ghost use Rattle.history_state.specs.Setting.{Setting, are_finals};
ghost use Rattle.history_state.specs.State.{State};
ghost use Rattle.trace_replay.specs.Lists.{Lists};
ghost use Rattle.trace_rows.specs.Rows.{IsDecided};

use crate::said::same_fault;
use history_event::Ending;
use ld_base::{DlFault, HartId};
use trace_replay::{Replay, have_exited};

/// How many bytes a hart writes at most.
const MOST_BYTES: usize = 256;

/// Whether a hart may have written these bytes.
pub(crate) fn may_write(bytes: &[u8]) -> bool
    ensures { (l : Lists) (hart : ℕ) → IsDecided l (Wrote hart bytes.now) result }
{
    (1..=MOST_BYTES).contains(&bytes.len())
}

/// Whether a hart may be told this refusal, or none: it is the one that is kept for it.
pub(crate) fn may_be_told(replay: &Replay, hart: HartId, fault: &Option<DlFault>) -> bool
    ensures { IsDecided replay.now (Told hart fault.now) result }
{
    match replay.kept(hart) {
        Some(kept) => is_refusal(fault, kept),
        None => fault.is_none(),
    }
}

/// Whether it is this refusal.
fn is_refusal(fault: &Option<DlFault>, kept: &DlFault) -> bool
    ensures { IsTrue result ↔ (fault.now ≡ Some kept.now) }
{
    match fault {
        Some(told) => same_fault(told, kept),
        None => false,
    }
}

/// Whether a hart may end: it hasn't ended, or it is the first, in the final destructors.
pub(crate) fn may_end(replay: &Replay, hart: HartId) -> bool
    ensures { (reason : HartEnd) → IsDecided replay.now (Ended hart reason) result }
{
    !has_ended(replay.endings(), hart) || (hart.number() == 0 && are_finals(replay))
}

/// Whether every hart has ended once, by exit.
pub(crate) fn are_finals(replay: &Replay) -> bool
    ensures { (w : Setting) (s : State) → w.machine ≡ machine_of replay.now.harts → s.endings ≡ replay.now.endings → result ≡ are_finals w s }
{
    let endings = replay.endings();
    let harts = replay.harts();
    endings.len() == harts as usize && have_exited(harts, endings)
}

/// Whether a hart has ended.
fn has_ended(endings: &[Ending], hart: HartId) -> bool
    ensures { result ≡ list_any (λ e. e.hart == hart) endings.now }
{
    endings.iter().any(|ending| ending.hart == hart)
}
