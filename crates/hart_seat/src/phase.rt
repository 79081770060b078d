//! How far a hart is with what it passes to the linker, and with a slot.

use crate::hart_parts::{Naming, Offered};
use ld_base::Shown;

/// What a hart has of what it passes. The bytes stand beside it.
#[derive(Clone, Copy)]
pub(crate) enum Phase {
    /// Nothing.
    AtPc,
    /// The first bytes of a name.
    Naming(Naming),
    /// dlvsym's name, and the first bytes of the version.
    Versioning,
    /// The name, and dlvsym's version.
    Named(Naming),
    /// The same, of an opening that waits for this.
    Waiting(Naming, Shown),
    /// The first bytes of a module's number and an offset.
    Pairing,
    /// The first bytes of what is to be written.
    Writing,
    /// dlerror's text is put at an address, where so many doublewords stand.
    Storing { text: u64, stored: u64 },
}

/// How far a hart is with a granted slot.
#[derive(Clone, Copy)]
pub(crate) enum Resolving {
    Idle,
    /// The exchange is next.
    ToExchange(Offered),
    /// The exchange found this word, and the end of the offer is next.
    ToFinish(Offered, u64),
    /// The hart runs on, and the next service settles its grant.
    ToSettle(Offered, u64),
}
