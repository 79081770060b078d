//! What holds of each lawful history.

ghost use Rattle.std.specs.Prelude.{ℕ, List, Contains};
ghost use Rattle.history_event.specs.declared.event.Event.{Event};
ghost use Rattle.history_state.specs.After.{after};
ghost use Rattle.history_state.specs.Legal.{Lawful};
ghost use Rattle.history_state.specs.Links.{unfinished};
ghost use Rattle.history_state.specs.Objects.{IsMapped};
ghost use Rattle.history_state.specs.Setting.{Machine};

/// An object that was initialised and isn't finalised is mapped.
pub(crate) fn unfinished_are_mapped()
    ensures { (m : Machine) (events : List Event) → Lawful m events → (d : ℕ) → Contains (unfinished (after events)) d → IsMapped (after events) d }
{
    history_state::uninitialised_stay();
}
