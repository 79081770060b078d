//! A journal that was read.

use history_event::EventLine;
use ld_base::{Choice, GrantNo, HartId, Sequence, Serial};

/// A grant, as its event made it.
#[derive(Clone, Copy)]
pub struct Made {
    /// How many events stand before its own.
    pub row: usize,
    pub grant: GrantNo,
    pub hart: HartId,
    pub owner: Serial,
    pub slot: u32,
    pub choice: Choice,
}

/// An event, in its row; of one that settles a grant, with that grant.
#[derive(Drop)]
pub struct Step {
    /// How many events stand before it.
    pub row: usize,
    pub event: EventLine,
    pub grant: Option<Made>,
}

/// Events, in order.
pub type Steps = Sequence<Step>;

/// The journal of a run.
#[derive(Drop)]
pub struct Journal {
    pub steps: Steps,
    /// What the last line says of the run's end: its words behind the first.
    pub last: Option<String>,
}
