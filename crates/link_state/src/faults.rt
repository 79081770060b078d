//! Why a call of the state is refused.

ghost use Rattle.std.specs.Prelude.{◌≡◌};
ghost use Rattle.link_state.specs.TlsFaults.{tls_fault};
ghost use Rattle.link_state.specs.declared.faults.CloseFault.TheVariants.{Memory};
ghost use Rattle.link_state.specs.declared.faults.TlsFault.TheVariants.{Memory as TlsMemory};

use ld_base::Serial;
use link_open_images::BlockFault;
use std::alloc::AllocError;

/// Why nothing is closed.
#[derive(Clone, Copy, PartialEq, Eq)]
pub enum CloseFault {
    /// The handle is of no opening that may be closed.
    BadHandle(u64),
    /// Want of memory.
    Memory,
}

impl From<AllocError> for CloseFault {
    ghost from_gives = { λ _ fault. fault ≡ Memory };

    fn from(_error: AllocError) -> Self {
        CloseFault::Memory
    }
}

/// Why a slot isn't granted.
#[derive(Clone, Copy, PartialEq, Eq)]
pub enum GrantFault {
    /// No object of this serial is mapped.
    Unloaded(u64),
    /// The object, and what was given for eight times the number of a slot; it has no such slot.
    NoSlot(Serial, u64),
    /// The object and its slot, whose symbol nothing defines.
    Missing(Serial, u32),
    /// The object and its slot, whose definition isn't code.
    NotCode(Serial, u32),
    /// Want of memory.
    Memory,
}

/// Why a hart has no block of a module's thread-local storage.
#[derive(Clone, Copy, PartialEq, Eq)]
pub enum TlsFault {
    /// No module has this number.
    BadModule(u64),
    /// There is no room for so many pages.
    NoRoom(u64),
    /// Want of memory.
    Memory,
}

impl From<AllocError> for TlsFault {
    ghost from_gives = { λ _ fault. fault ≡ TlsMemory };

    fn from(_: AllocError) -> Self {
        TlsFault::Memory
    }
}

impl From<BlockFault> for TlsFault {
    ghost from_gives = { λ error fault. fault ≡ tls_fault error };

    fn from(error: BlockFault) -> Self {
        match error {
            BlockFault::NoRoom(pages) => TlsFault::NoRoom(pages),
            BlockFault::Memory => TlsFault::Memory,
        }
    }
}
