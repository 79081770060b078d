//! What a hart and memory take of a turn alone.

ghost use Rattle.std.specs.Prelude.{◌≡◌, ℕ, List, None};
ghost use Rattle.hart_moves.specs.Due.{Due as is_due, due};
ghost use Rattle.hart_moves.specs.Harts.Resolving.{to_exchange, to_finish};
ghost use Rattle.hart_moves.specs.Harts.{Offered as granted};
ghost use Rattle.hart_seat.specs.HartParts.Views.{offered_of};
ghost use Rattle.history_state.specs.State.{State};
ghost use Rattle.world_answers.specs.GuestsPart.Alone.{GoesOn, TakesAlone};
ghost use Rattle.rv_hart.specs.declared.doubleword.Doubleword.{Doubleword};

use hart_seat::{Due, LinkedHart, Offered};
use hart_turns::{Turned, finish, instruct, take_turn};
use history_event::HartEnd;
use world_memory::PlainMemory;

/// Takes the turn that is due, but for the end of its hart, if it asks nothing of the linker. Else nothing
/// has changed.
#[inline(always)]
pub(crate) fn take_alone(hart: &mut LinkedHart, memory: &mut PlainMemory) -> Option<Turned>
    requires { hart.old.hart.«end» ≡ None }
    ensures { (s : State) → TakesAlone memory.old memory.new (due s hart.old.hart) hart.old.hart hart.new.hart result }
{
    match hart.due() {
        Due::Instruction => Some(instruct(hart, memory)),
        Due::Copy(..) | Due::Store { .. } | Due::Enter(_) => take_turn(hart, memory),
        Due::Exchange(offered) => Some(exchange(hart, memory, offered)),
        Due::Finish(_, _) => Some(finish_offer(hart)),
        Due::FuelOut => Some(Turned::Ends(HartEnd::FuelOut)),
        Due::Nothing | Due::Serve(_) | Due::Wait(..) | Due::Complete(..) => None,
    }
}

/// The turn of the exchange on a granted slot.
fn exchange(hart: &mut LinkedHart, memory: &mut PlainMemory, offered: Offered) -> Turned
    requires runs { hart.old.hart.«end» ≡ None }
    requires granted { hart.old.hart.resolving ≡ to_exchange (offered_of offered) }
    ensures result { result ≡ Turned.Over }
    ensures turn { GoesOn memory.old memory.new (is_due.exchange (offered_of offered)) hart.old.hart hart.new.hart }
{
    let found = memory.exchange(offered);
    hart.exchanged(found);
    Turned::Over
}

/// The turn of the end of an offer.
fn finish_offer(hart: &mut LinkedHart) -> Turned
    requires { hart.old.hart.«end» ≡ None }
    ensures result { result ≡ Turned.Over }
    ensures turn { (words : List Doubleword) (o : granted) (found : ℕ) → hart.old.hart.resolving ≡ to_finish o found
        → GoesOn words words (is_due.finish o found) hart.old.hart hart.new.hart }
{
    finish(hart);
    Turned::Over
}
