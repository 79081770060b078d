//! What holds of each lawful history.

ghost use Rattle.std.specs.Prelude.{ℕ, ◌<◌, List};
ghost use Rattle.history_event.specs.declared.event.Event.{Event};
ghost use Rattle.history_state.specs.After.{after};
ghost use Rattle.history_state.specs.Allowed.{MayEnd};
ghost use Rattle.history_state.specs.Legal.{Lawful};
ghost use Rattle.history_state.specs.Owed.{ends_at_most, times_ended};
ghost use Rattle.history_state.specs.Setting.{Setting};

/// A hart that may end has ended less often than it may.
pub fn ends_are_few()
    ensures { (w : Setting) (events : List Event) (hart : ℕ) → Lawful w.machine events → MayEnd w (after events) hart
        → times_ended hart (after events).endings < ends_at_most hart }
{}
