//! The turns that need neither the linker nor a slot, and the end of an offer.

ghost use Rattle.std.specs.Prelude.{◌≡◌, ℕ, ◌<◌, [], List};
ghost use Rattle.history_event.specs.declared.event.Event.{Event};
ghost use Rattle.history_state.specs.Setting.{Setting};
ghost use Rattle.history_state.specs.State.{State};
ghost use Rattle.hart_moves.specs.Due.{Due as is_due, due};
ghost use Rattle.hart_moves.specs.Harts.Resolving.{to_finish};
ghost use Rattle.hart_moves.specs.Harts.{Offered as granted};
ghost use Rattle.hart_moves.specs.Moves.{Did, MovesAs};
ghost use Rattle.hart_seat.specs.HartParts.Queues.{entered_frames};
ghost use Rattle.hart_seat.specs.HartParts.Views.{copying_of};
ghost use Rattle.hart_turns.specs.Turns.{TakesOwn, is_text};

use crate::{Turned, copy, instruct, store};
use hart_seat::{Copying, Due, LinkedHart, first_left};
use rv_hart::Bus;

/// Takes the turn that is due, if it is an instruction, a doubleword that is copied or stored, or the
/// entry of a function.
pub fn take_turn<B: Bus>(hart: &mut LinkedHart, bus: &mut B) -> Option<Turned>
    ensures { (s : State) → TakesOwn B.does bus.old bus.new (due s hart.old.hart) hart.old.hart hart.new.hart result }
{
    match hart.due() {
        Due::Instruction => Some(instruct(hart, bus)),
        Due::Copy(what, start, bytes) => {
            let first = first_left(start, bytes);
            let text = is_text(what);
            Some(copy(hart, bus, first, text))
        }
        Due::Store { text, stored, word } => Some(store(hart, bus, text + 8 * stored, word)),
        Due::Enter(function) => Some(enter(hart, function)),
        _ => None,
    }
}

/// The turn of the end of an offer.
pub fn finish(hart: &mut LinkedHart)
    ensures { (w : Setting) (past : List Event) (h : ℕ) (o : granted) (found : ℕ) → hart.old.hart.resolving ≡ to_finish o found
        → MovesAs w past h hart.old.hart (is_due.finish o found) Did.finishes hart.new.hart }
{
    hart.finished();
}

/// The turn in which a function is entered.
fn enter(hart: &mut LinkedHart, function: u64) -> Turned
    requires { hart.old.hart.turns < hart.old.hart.fuel }
    ensures result { result ≡ Turned.Over }
    ensures row { (w : Setting) (past : List Event) (h : ℕ)
        → MovesAs w past h hart.old.hart (is_due.enter function (entered_frames hart.old.hart.frames)) (Did.quiet []) hart.new.hart }
{
    hart.enter(function);
    hart.spend();
    Turned::Over
}

/// Whether bytes are copied that are to be written.
fn is_text(copying: Copying<'_>) -> bool
    ensures { result ≡ is_text (copying_of copying.entry) }
{
    matches!(copying, Copying::Text(_))
}
