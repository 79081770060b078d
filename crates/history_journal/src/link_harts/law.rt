//! What holds of ends.

ghost use Rattle.std.specs.Prelude.{◌≡◌, ℕ, ◌+◌, ◌≤◌, []};
ghost use Rattle.history_state.specs.Owed.{ends_left};

/// Before any has ended, each hart's end is left, and of hart 0 one more.
pub fn each_hart_ends()
    ensures { (harts : ℕ) → 1 ≤ harts → ends_left harts [] ≡ harts + 1 }
{}
