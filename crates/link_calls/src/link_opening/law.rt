//! What holds of the namespaces of each lawful history.

ghost use Rattle.std.specs.Prelude.{List};
ghost use Rattle.history_event.specs.declared.event.Event.{Event};
ghost use Rattle.history_state.specs.After.{after};
ghost use Rattle.history_state.specs.Legal.{Lawful};
ghost use Rattle.history_state.specs.Setting.{Machine};
ghost use Rattle.link_calls.specs.LinkOpening.Asked.{AreFew};

/// The numbers of namespaces are below 16.
pub fn namespaces_are_few()
    ensures { (m : Machine) (events : List Event) → Lawful m events → AreFew (after events).namespaces }
{}
