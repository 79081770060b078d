//! The exchange of a slot.

ghost use Rattle.std.specs.Prelude.{◌≡◌, None};
ghost use Rattle.hart_threads.specs.Binding.{BindsSlot};
ghost use Rattle.slot_bind.specs.Rows.{HasRow, offer_of};

use hart_seat::LinkedHart;
use slot_bind::{Bound, bind, done, take};
use word_memory::{HartSeat, Memory, Naming};

/// Takes the two turns of a granted slot: its exchange, and the end of the offer. The hart goes on at its
/// own choice, or at the word that the slot holds.
pub fn bind_slot<J: Naming>(memory: &Memory<J>, seat: &mut HartSeat<J>, hart: &mut LinkedHart)
    requires row { HasRow seat.old }
    requires mark { (offer_of seat.old).mark ≡ 3 }
    requires untried { seat.old.lane.tried ≡ None }
    ensures { BindsSlot seat.old seat.new hart.old.hart hart.new.hart }
{
    let offer = take(memory, seat);
    let bound = bind(memory, seat, &offer);
    let found = match bound {
        Bound::Won => offer.lazy,
        Bound::Lost(found) => found,
    };
    hart.exchanged(found);
    let _ = done(memory, seat, offer, bound);
    hart.finished();
}
