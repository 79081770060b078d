//! What came of a call.

use crate::link_served::Installs;
use history_event::{Dying, Functions};
use ld_base::{DlFault, Shown};

/// What came of a hart's call of a dl function.
#[derive(Drop)]
pub enum Served {
    /// It returns with this value.
    Done(u64),
    /// It returns with the handle once the constructors have run.
    Opened(u64, Installs, Functions),
    /// The objects are unmapped once their destructors have run; then it returns with 0.
    Closing(Dying, Functions),
    /// It is refused, which is in the journal.
    Refused(DlFault),
    /// Nothing has come of it yet: the hart tries again.
    Again(Shown),
    /// Want of memory. Nothing has changed.
    Memory,
}
