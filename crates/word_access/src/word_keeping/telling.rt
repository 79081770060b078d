//! What the keeper tells a hart, by notes.

ghost use Rattle.std.specs.Prelude.{◌≡◌, ℕ, Some};
ghost use Rattle.word_rule.specs.declared.view.Offer.{Offer};
ghost use Rattle.word_rule.specs.Joining.{IsSettled};
ghost use Rattle.word_rule.specs.Views.{BeginsWith, NoneAbove, known_of, readings_of, row_of};
ghost use Rattle.word_steps.specs.Views.{IsIdle, IsResting};

use word_rule::{HartKind, KeeperKind};
use word_steps::{Desk, Hand, Memory, Naming, QUIET};

/// Tells a hart of the keeper's events: the keeper takes in a note of what the hart knows, and the hart
/// one of what the keeper knows. The hart isn't calling, or has read its row in full.
#[tactic(auto, using(crate::proofs::WordKeeping::Told::told_keeper))]
pub fn tell<J: Naming>(memory: &Memory<J>, desk: &mut Desk<J>, hand: &mut Hand<J>)
    requires resting { IsResting desk.old }
    requires idle { IsIdle hand.old }
    requires settled { IsSettled hand.old.lane }
    ensures heard { hand.new ≡ record hand.old { heard = desk.old.events } }
    ensures begun { BeginsWith desk.old.events hand.old.heard }
    ensures keeper { desk.new ≡ desk.old }
    ensures issued { known_of hand.old.lane ≡ (row_of desk.old hand.old.number).issued }
    ensures lazy { (o : Offer) (x : ℕ) → hand.old.lane.offer ≡ Some o → o.lazy ≡ Some x → x ≡ (row_of desk.old hand.old.number).lazy }
    ensures readings { NoneAbove desk.old.generation (readings_of hand.old.trail) }
{
    desk.take_note(memory, hand);
    desk.load_word(memory, QUIET, KeeperKind::Listen);
    hand.take_note(memory, desk);
    hand.load_word(memory, QUIET, HartKind::Listen);
}
