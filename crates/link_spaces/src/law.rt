//! What holds of the namespaces of each lawful history.

ghost use Rattle.std.specs.Prelude.{List};
ghost use Rattle.history_event.specs.declared.event.Event.{Event};
ghost use Rattle.history_state.specs.After.{after};
ghost use Rattle.history_state.specs.Legal.{Lawful};
ghost use Rattle.history_state.specs.Setting.{Machine};
ghost use Rattle.link_spaces.specs.Numbered.{AreNumberedApart};

/// No two namespaces have one number.
pub fn namespaces_are_numbered_apart()
    ensures { (m : Machine) (events : List Event) → Lawful m events → AreNumberedApart (after events).namespaces }
{}
