//! What an unmapping waits for.

ghost use Rattle.std.specs.Prelude.{◌≡◌, ℕ, List, find, filter, None, Some};
ghost use Rattle.history_event.specs.declared.event.Event.{Event};
ghost use Rattle.history_event.specs.declared.state.Granting.{Granting};
ghost use Rattle.history_state.specs.After.{after};
ghost use Rattle.history_state.specs.Allowed.{IsUngranted};
ghost use Rattle.history_state.specs.Grants.{is_open};
ghost use Rattle.history_state.specs.Legal.{Lawful};
ghost use Rattle.history_state.specs.Setting.{Machine};
ghost use Rattle.history_calls.specs.Waiting.{IsHeldBy};
ghost use Rattle.close_mark.specs.UnmapSteps.Touched.{is_touching};

use history_state::grants_are_tidy;

/// The first open grant whose owner or target is of a set is the least that touches the set; where there is
/// none, no open grant does.
pub fn first_is_least()
    ensures least { (m : Machine) (events : List Event) → Lawful m events → (set : List ℕ) (g : Granting) →
        find (is_touching set) (filter is_open (after events).grants) ≡ Some g → IsHeldBy (after events) set g.number }
    ensures none { (events : List Event) (set : List ℕ) → find (is_touching set) (filter is_open (after events).grants) ≡ None
        → IsUngranted (after events) set }
{
    grants_are_tidy();
}
