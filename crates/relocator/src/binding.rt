//! What relocations were bound to.

use ld_base::{Bytes, Choice, Sequence, Serial};

/// What the symbol of a relocation was bound to.
#[derive(Drop)]
pub struct Binding {
    /// False exactly for a slot that stays lazy. Its other fields aren't used then.
    pub bound: bool,
    pub choice: Choice,
    /// The address of the definition; for thread-local storage the value of its symbol.
    pub value: u64,
    /// The size of the definition.
    pub size: u64,
    /// The object of the definition; none for a weak symbol without one.
    pub object: Option<Serial>,
    /// The bytes that a copy takes, as many as the smaller of the two symbols has.
    pub copied: Bytes,
}

/// Bindings, one a relocation: those of DT_RELA, and then those of the slots.
pub type Bindings = Sequence<Binding>;

/// The thread-local storage of an object: the number of its module, with its offset in each static
/// block where it has one.
#[derive(Clone, Copy, PartialEq, Eq)]
pub struct ModulePlace {
    pub serial: Serial,
    pub number: u64,
    pub offset: Option<u64>,
}

/// Places of modules, one an object with thread-local storage. Each relocation of thread-local
/// storage looks its object up in them, one after the other.
pub type TlsPlaces = Sequence<ModulePlace>;
