//! What came of a turn.

ghost use Rattle.std.specs.Prelude.{◌≡◌, ◌≢◌, None, Some};
ghost use Rattle.ld_base.specs.declared.fault.Shown.{Shown as cause};
ghost use Rattle.world_answers.specs.GuestsPart.Taking.{IsOutcome};

use crate::guests::guest_worlds::Turn;
use hart_seat::LinkedHart;
use ld_base::Shown;
use world_memory::Answered;

/// What came of a hart's turn, in which it is told to wait for something, or isn't.
pub(crate) fn outcome(hart: &LinkedHart, waits: Option<Shown>) -> Turn
    ensures is { IsOutcome hart.now.hart result }
    ensures again { (shown : cause) → result ≡ Turn.Again shown → waits ≡ Some shown }
    ensures stepped { result ≡ Turn.Stepped → waits ≡ None }
{
    if let Some(reason) = hart.end() {
        return Turn::Ended(reason);
    }
    match waits {
        Some(shown) => Turn::Again(shown),
        None => Turn::Stepped,
    }
}

/// What a hart is told to wait for, if it is.
pub(crate) fn shown_by(came: &Answered) -> Option<Shown>
    ensures some { (shown : cause) → result ≡ Some shown → came.now ≡ Answered.Again shown }
    ensures none { result ≡ None → (shown : cause) → came.now ≢ Answered.Again shown }
{
    match came {
        Answered::Again(shown) => Some(*shown),
        _ => None,
    }
}
