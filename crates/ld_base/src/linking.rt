//! What is asked of an object, and what an object is once it is loaded.

use crate::{Bytes, HartId, HashTable, Name, Object, Sequence, Serial, Serials};

/// What a reference asks of a definition's version.
#[derive(Drop)]
pub enum Want {
    /// A relocation with this version.
    Version(Name),
    /// A relocation without a version.
    Plain,
    /// dlsym, which names no version.
    Dlsym,
    /// dlvsym, which names this version.
    Dlvsym(Name),
}

/// What a search gives for a symbol.
#[derive(Clone, Copy, Debug, PartialEq, Eq)]
pub enum Choice {
    /// The object and the index of its symbol.
    Def(Serial, u32),
    /// Nothing, for a weak symbol, which then counts as 0.
    WeakZero,
    /// Nothing.
    Missing,
}

/// What a doubleword of guest memory may be used for.
#[derive(Clone, Copy, Debug, PartialEq, Eq)]
pub enum Role {
    None,
    Ro,
    Rx,
    Rw,
    Slot,
}

/// Where a mapped object stands between its opening and its unmapping.
#[derive(Clone, Copy, PartialEq, Eq)]
pub enum State {
    /// Its constructors run on this hart.
    Initialising(HartId),
    Ready,
    /// Its destructors run on this hart.
    Dying(HartId),
}

/// The number of a TLS module, with its offset in each static block where it has one.
#[derive(Clone, Copy, PartialEq, Eq)]
pub struct TlsPlace {
    pub number: u64,
    pub offset: Option<u64>,
}

/// An object that is loaded: what events and the state of the linker hold of it.
#[derive(Drop)]
pub struct Loaded {
    pub serial: Serial,
    pub path: Name,
    pub object: Object,
    pub table: HashTable,
    pub base: u64,
    pub state: State,
    pub module: Option<TlsPlace>,
    /// Whether the opening that loaded it put its own libraries first (RTLD_DEEPBIND).
    pub deep: bool,
    /// The object found for each of its names, in order.
    pub found: Serials,
}

/// Loaded objects, in load order.
pub type Added = Sequence<Loaded>;

/// A file: its path and what is in it.
#[derive(Drop)]
pub struct File {
    pub path: Name,
    pub bytes: Bytes,
}

/// Files, in order.
pub type Files = Sequence<File>;
/// Numbers of calls, from 1, in order.
pub type Calls = Sequence<u64>;
