//! The items of a schedule.

use ld_base::{HartId, Sequence};

/// A hart takes its next so many turns.
#[derive(Clone, Copy, PartialEq, Eq)]
pub struct TurnItem {
    pub hart: HartId,
    pub count: u64,
}

/// A schedule. After its last item the harts take a turn each in order, again and again, until all have
/// ended.
pub type Turns = Sequence<TurnItem>;
