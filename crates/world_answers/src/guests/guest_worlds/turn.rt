//! What came of a turn.

use history_event::HartEnd;
use ld_base::Shown;

/// What came of a hart's turn.
#[derive(Clone, Copy, PartialEq, Eq)]
pub enum Turn {
    /// The hart did something.
    Stepped,
    /// Nothing has come of what it asked for yet: it tries again in its next turn.
    Again(Shown),
    /// The hart has ended.
    Ended(HartEnd),
    /// It had ended before.
    Idle,
}
