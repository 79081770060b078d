//! A namespace: its objects, and what has been opened in it.

use ld_base::{Added, NsId, Sequence, Serial, Serials};

/// An opening that counts: what it opened, and how many times.
#[derive(Clone, Copy, PartialEq, Eq)]
pub struct OpenRec {
    pub root: Serial,
    pub count: u64,
}

/// Openings, in the order of their first.
pub type Opens = Sequence<OpenRec>;

/// A namespace: objects that see each other's definitions.
#[derive(Drop)]
pub struct Namespace {
    pub id: NsId,
    /// In load order.
    pub objects: Added,
    /// The objects whose definitions every object of the namespace may be bound to, in order.
    pub global: Serials,
    /// In the order of their first.
    pub opens: Opens,
}
