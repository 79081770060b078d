//! Notes: the keeper is told of a hart's knowledge, and a hart of the keeper's.
//!
//! A note is made of one seat and taken in by the other at once. Who took it in knows that it is true
//! from its next load on.

ghost use Rattle.std.specs.Prelude.{◌≡◌};
ghost use Rattle.word_rule.specs.Joining.{IsSettled};
ghost use Rattle.word_steps.specs.Knowing.{told_by, told_of};

use crate::desk::Desk;
use crate::hand::Hand;
use crate::{Memory, Naming};

impl<J: Naming> Desk<J> {
    /// The keeper takes in a note of what a hart knows.
    #[tactic(auto, using(crate::proofs::Told::may_hear_hart, crate::proofs::Told::hears_hart))]
    pub fn take_note(&mut self, memory: &Memory<J>, hand: &mut Hand<J>)
        ensures hand { hand.new ≡ hand.old }
        ensures told { self.new ≡ told_of hand.old self.old }
    {
        let note = hand.note(memory);
        self.take(memory, note);
    }
}

impl<J: Naming> Hand<J> {
    /// A hart takes in a note of what the keeper knows. It isn't calling, or has read its row in full.
    #[tactic(auto, using(crate::proofs::Told::may_hear_keeper, crate::proofs::Told::hears_keeper))]
    pub fn take_note(&mut self, memory: &Memory<J>, desk: &mut Desk<J>)
        requires { IsSettled self.old.lane }
        ensures desk { desk.new ≡ desk.old }
        ensures told { self.new ≡ told_by desk.old self.old }
    {
        let note = desk.note(memory);
        self.take(memory, note);
    }
}
