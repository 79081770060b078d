//! How calls return, and texts that are passed.

ghost use Rattle.std.specs.Prelude.{◌≡◌, ℕ, ◌+◌, ◌%◌, ◌≤◌, ◌^◌, [], List, length};
ghost use Rattle.hart_moves.specs.Copying.{text_words};
ghost use Rattle.hart_moves.specs.Due.{back, behind};
ghost use Rattle.hart_moves.specs.Harts.Phase.{storing, writing};
ghost use Rattle.hart_moves.specs.Moves.{returning, running, stored_to, telling};
ghost use Rattle.hart_moves.specs.Registers.{passed_ecall};
ghost use Rattle.hart_moves.specs.Waiting.{awaiting};
ghost use Rattle.hart_seat.specs.HartParts.Views.{closing_back, purpose_of};
ghost use Rattle.hart_seat.specs.Table.{closing_return};

use crate::LinkedHart;
use crate::hart_parts::{Purpose, RA, return_with};
use crate::phase::Phase;
use ld_base::{Name, Shown};

impl LinkedHart {
    /// A function that the hart called returns with a value.
    pub fn return_with(&mut self, value: u64)
        ensures { self.new.hart ≡ returning (back self.old.hart) value self.old.hart }
    {
        let to = self.registers.x[RA];
        return_with(&mut self.registers, to, value);
        self.phase = Phase::AtPc;
    }

    /// An ecall, or the write that it asked for, returns with a value.
    pub fn pass_ecall(&mut self, value: u64)
        ensures ecall { self.new.hart ≡ running (passed_ecall value self.old.hart.registers) self.old.hart }
        ensures call { self.new.hart ≡ returning (behind self.old.hart) value self.old.hart }
    {
        let to = self.registers.pc.wrapping_add(4);
        return_with(&mut self.registers, to, value);
        self.phase = Phase::AtPc;
    }

    /// A closing, whose objects are unmapped, returns with a value.
    pub fn return_closed(&mut self, value: u64)
        ensures { self.new.hart ≡ returning (closing_back self.old.hart self.old.hart.frames) value self.old.hart }
    {
        let to = self.leave_closing();
        return_with(&mut self.registers, to, value);
        self.phase = Phase::AtPc;
    }

    /// What it asked for has to wait for this. An opening keeps that; another call is made again in the next turn.
    pub fn wait(&mut self, shown: Shown)
        ensures { self.new.hart ≡ awaiting shown self.old.hart }
    {
        if let Phase::Named(naming) | Phase::Waiting(naming, _) = self.phase {
            self.phase = Phase::Waiting(naming, shown);
        }
    }

    /// A write has been asked for: its bytes are to be copied.
    pub fn begin_write(&mut self)
        ensures { self.new.hart ≡ record self.old.hart { phase = writing [] } }
    {
        self.bytes.clear();
        self.phase = Phase::Writing;
    }

    /// dlerror's text is to be stored at an address.
    pub fn tell(&mut self, text: u64, message: Name)
        requires aligned { text % 8 ≡ 0 }
        requires inside { text + length message + 8 ≤ 2 ^ 64 }
        ensures { self.new.hart ≡ telling text (text_words message) self.old.hart }
    {
        self.message = message;
        self.phase = Phase::Storing { text, stored: 0 };
    }

    /// A doubleword of the text was stored. The call returns with the last one.
    pub fn stored(&mut self)
        ensures kept { self.new.hart ≡ record self.old.hart { registers = self.new.hart.registers; phase = self.new.hart.phase } }
        ensures stored { (text stored word : ℕ) (more : List ℕ) → self.old.hart.phase ≡ storing text stored word more
            → self.new.hart ≡ stored_to text stored more self.old.hart }
    {
        if let Phase::Storing { text, stored } = self.phase {
            if stored < self.message.as_bytes().len() as u64 / 8 {
                let stored = stored + 1;
                self.phase = Phase::Storing { text, stored };
            } else {
                self.return_with(text);
            }
        }
    }

    /// Leaves the innermost frame, of a closing, and answers where it returns to.
    fn leave_closing(&mut self) -> u64
        ensures to { result ≡ (closing_back self.old.hart self.old.hart.frames).to }
        ensures left { self.new.hart ≡ record self.old.hart { frames = (closing_back self.old.hart self.old.hart.frames).frames } }
    {
        let to = match self.frames.last() {
            Some(frame) => closing_return(frame.purpose()),
            None => None,
        };
        match to {
            Some(to) => {
                self.frames.pop();
                to
            }
            None => self.registers.x[RA],
        }
    }
}

/// Where a closing returns to.
fn closing_return(purpose: &Purpose) -> Option<u64>
    ensures { result ≡ closing_return (purpose_of purpose.now) }
{
    match purpose {
        Purpose::Closing(to, _) => Some(*to),
        _ => None,
    }
}
