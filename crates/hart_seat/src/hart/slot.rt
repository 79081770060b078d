//! A granted slot.

ghost use Rattle.std.specs.Prelude.{◌≡◌, ℕ, ◌<◌};
ghost use Rattle.hart_moves.specs.Harts.Resolving.{to_exchange, to_finish, to_settle};
ghost use Rattle.hart_moves.specs.Harts.{Offered as granted};
ghost use Rattle.hart_moves.specs.Moves.{spent, word_left};
ghost use Rattle.hart_moves.specs.Registers.{at};
ghost use Rattle.hart_seat.specs.HartParts.Views.{offered_of};

use crate::LinkedHart;
use crate::hart_parts::Offered;
use crate::phase::Resolving;

impl LinkedHart {
    /// A slot is granted: its exchange is next.
    pub fn offer(&mut self, offered: Offered)
        requires { self.old.hart.turns < self.old.hart.fuel }
        ensures { self.new.hart ≡ record self.old.hart { resolving = to_exchange (offered_of offered) } }
    {
        self.resolving = Resolving::ToExchange(offered);
    }

    /// The turn of an exchange, which found this word.
    pub fn exchanged(&mut self, found: u64)
        ensures { (o : granted) → self.old.hart.resolving ≡ to_exchange o → self.new.hart ≡ spent (record self.old.hart { resolving = to_finish o found }) }
    {
        if let Resolving::ToExchange(offered) = self.resolving {
            self.resolving = Resolving::ToFinish(offered, found);
            self.turns += 1;
        }
    }

    /// The turn of the end of an offer: the hart goes on where the slot leads.
    pub fn finished(&mut self)
        ensures { (o : granted) (found : ℕ) → self.old.hart.resolving ≡ to_finish o found
            → self.new.hart ≡ spent (record self.old.hart { registers = at (word_left o found) self.old.hart.registers; resolving = to_settle o found }) }
    {
        if let Resolving::ToFinish(offered, found) = self.resolving {
            self.registers.pc = if found == offered.lazy {
                offered.value
            } else {
                found
            };
            self.resolving = Resolving::ToSettle(offered, found);
            self.turns += 1;
        }
    }
}
