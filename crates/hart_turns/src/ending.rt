//! Turns that end their harts.

ghost use Rattle.std.specs.Prelude.{◌≡◌, ◌<◌, List};
ghost use Rattle.std.specs.List.{list_any};
ghost use Rattle.rv_hart.specs.declared.bus.Item.{Item};
ghost use Rattle.hart_moves.specs.Moves.{is_store, role_end, spent};

use crate::Turned;
use hart_seat::LinkedHart;
use history_event::HartEnd;
use ld_base::Role;

/// The turn counts, and its hart is to end.
pub(crate) fn end_with(hart: &mut LinkedHart, reason: HartEnd) -> Turned
    requires { hart.old.hart.turns < hart.old.hart.fuel }
    ensures result { result ≡ Turned.Ends reason }
    ensures hart { hart.new.hart ≡ spent hart.old.hart }
{
    hart.spend();
    Turned::Ends(reason)
}

/// As what a hart ends whose access a role doesn't allow.
pub(crate) fn role_end(pc: u64, address: u64, role: Role, stores: bool) -> HartEnd
    ensures { (items : List Item) → stores ≡ list_any is_store items → result ≡ role_end pc address items role }
{
    if role == Role::Slot && stores {
        HartEnd::SlotStore(pc, address)
    } else {
        HartEnd::NotMapped(pc, address)
    }
}
