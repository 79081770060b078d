//! Seats that are made, and seats that are joined. Nothing else in this crate does that.

ghost use Rattle.std.specs.Prelude.{◌≡◌, []};
ghost use Rattle.word_rule.specs.Joining.{HasNote, HasRoom, MayTake, new_hart, note_of, takes_in, with_hart};

use crate::{Memory, Naming};
use atomic_table::Seat;
use word_rule::{MakesHart, MakesNote, TakesIn, View};

/// A hart's seat is made from the keeper's.
pub(crate) fn split_hart<J: Naming>(
    memory: &Memory<J>,
    keeper: &mut Seat<(), View>,
) -> Seat<(), View>
    requires table { keeper.old.table_id ≡ J.table }
    requires room { (keeper.old.me.1 ≡ []) × HasRoom keeper.old.me.0 }
    ensures keeper { (keeper.new.table_id ≡ J.table) × (keeper.new.me ≡ (with_hart keeper.old.me.0, [])) }
    ensures hart { (result.table_id ≡ J.table) × (result.me ≡ (new_hart keeper.old.me.0, [])) }
{
    memory.table.shared.split_seat::<MakesHart>(keeper)
}

/// A note is made, and the seat stays as it is.
pub(crate) fn split_note<J: Naming>(memory: &Memory<J>, seat: &mut Seat<(), View>) -> Seat<(), View>
    requires table { seat.old.table_id ≡ J.table }
    requires noted { (seat.old.me.1 ≡ []) × HasNote seat.old.me.0 }
    ensures seat { (seat.new.table_id ≡ J.table) × (seat.new.me ≡ seat.old.me) }
    ensures note { (result.table_id ≡ J.table) × (result.me ≡ (note_of seat.old.me.0, [])) }
{
    memory.table.shared.split_seat::<MakesNote>(seat)
}

/// A seat takes another in.
pub(crate) fn join_seat<J: Naming>(
    memory: &Memory<J>,
    seat: &mut Seat<(), View>,
    other: Seat<(), View>,
)
    requires table { (seat.old.table_id ≡ J.table) × (other.table_id ≡ J.table) }
    requires empty { (seat.old.me.1 ≡ []) × (other.me.1 ≡ []) }
    requires may { MayTake seat.old.me.0 other.me.0 }
    ensures { (seat.new.table_id ≡ J.table) × (seat.new.me ≡ (takes_in seat.old.me.0 other.me.0, [])) }
{
    memory.table.shared.join_seat::<TakesIn>(seat, other)
}
