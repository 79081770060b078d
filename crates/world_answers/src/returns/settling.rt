//! Settling.

ghost use Rattle.std.specs.Prelude.{◌≡◌, ◌++◌, map};
ghost use Rattle.world_answers.specs.ReturnsPart.Settling.{freed_in, harts_in};
ghost use Rattle.world_memory.specs.TurnAnswers.Following.{MayFollowAll};
ghost use Rattle.world_turns.specs.World.{settled_by, settling};

use hart_seat::LinkedHart;
use link_state::LinkState;

/// Settles each grant whose hart is done with it, in order of the harts' numbers: as bound, where its
/// exchange found the lazy word, and else as lost. It takes no memory.
pub fn settle_all(state: &mut LinkState, harts: &mut [LinkedHart])
    requires { MayFollowAll state.old.harts state.old.events (settling (harts_in harts.old)) }
    ensures journal { state.new ≡ record state.old { events = state.old.events ++ settling (harts_in harts.old) } }
    ensures harts { harts.new ≡ map freed_in harts.old }
{
    for hart in harts.iter_mut() {
        settle_one(state, hart);
    }
}

/// Settles the grant of a hart that is done with one.
fn settle_one(state: &mut LinkState, hart: &mut LinkedHart)
    requires { MayFollowAll state.old.harts state.old.events (settled_by hart.old.hart.resolving) }
    ensures journal { state.new ≡ record state.old { events = state.old.events ++ settled_by hart.old.hart.resolving } }
    ensures hart { hart.new ≡ freed_in hart.old }
{
    if let Some((offered, found)) = hart.done() {
        state.settle(offered.number, found == offered.lazy, found);
        hart.settle();
    }
}
