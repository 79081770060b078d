//! What came of a turn.

use history_event::HartEnd;
use ld_base::Shown;

/// What came of a turn that asked nothing of the linker.
#[derive(Clone, Copy, Debug, PartialEq, Eq)]
pub enum Turned {
    /// The turn is over.
    Over,
    /// So it is, and what it asked for is to be tried again.
    Again(Shown),
    /// The turn is over but for the end of its hart.
    Ends(HartEnd),
}
