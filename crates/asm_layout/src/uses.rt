//! What code and data need of names.

use ld_base::Name;

/// What the global offset table has of a name.
#[derive(Clone, Copy)]
pub enum GotKind {
    /// A word: the name's address.
    Address,
    /// Two words: the module of a thread-local name, and its offset in the module's block.
    Pair,
    /// A word: the offset of a thread-local name from the thread pointer.
    Offset,
}

/// What stands in the global offset table for a name.
#[derive(Drop)]
pub struct GotUse {
    /// What of the name.
    pub kind: GotKind,
    /// The name.
    pub name: Name,
}

/// A symbol that other objects may find.
#[derive(Drop)]
pub struct Exported {
    /// The label that it stands for.
    pub label: Name,
    /// Its name.
    pub name: Name,
    /// Its version, where it has one.
    pub version: Option<Name>,
    /// Whether that is a version which the object needs, as that of a copy, and not one that it defines.
    pub is_needed: bool,
    /// Whether references without a version find it.
    pub is_default: bool,
}
