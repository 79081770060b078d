//! What came of a call.

use hart_seat::Offered;
use history_calls::Installs;
use history_event::{Dying, Functions, HartEnd, Ranges};
use ld_base::{Name, Serial, Shown};

/// What guest memory gets of the events of a turn.
#[derive(Drop)]
pub enum MemoryChange {
    /// Nothing.
    Nothing,
    /// The pages that an opening reserves.
    Installs(Installs),
    /// The pages of the block that the linker's state has made last, if it has made one.
    Made,
    /// These pages are taken away.
    Removes(Ranges),
}

/// What came of a hart's call. Its events are in the journal.
#[derive(Drop)]
pub enum Answered {
    /// It returns with this value.
    Returns(u64, MemoryChange),
    /// It returns with the root's handle once the constructors of the new objects have run.
    Loading(Serial, Installs, Functions),
    /// The objects are unmapped once their destructors have run.
    Closing(Dying, Functions),
    /// A slot is granted: its exchange comes next.
    Granted(Offered),
    /// It returns once this text stands at the address, which it returns with.
    Told(u64, Name),
    /// Nothing has come of it yet: the hart makes the call again in its next turn.
    Again(Shown),
    /// The hart has ended, which is noted.
    Over(HartEnd),
}
