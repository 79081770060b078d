//! What is asked of a load, and what it answers.

ghost use Rattle.std.specs.Prelude.{◌≡◌};
ghost use Rattle.load_walk.specs.declared.ask.LoadFault.TheVariants.{Memory};

use ld_base::{Added, DlFault, HartId, Name, Names, Serial, Serials, Shown};
use std::alloc::{AllocError, AllocFailed};
use thiserror::Error;

/// An object to load with all that it needs.
#[derive(Drop)]
pub struct LoadAsk {
    /// A program's path; else a name as dlopen takes it.
    pub name: Name,
    /// Where names without a slash are searched, in order.
    pub folders: Names,
    /// Names that a program needs before its own.
    pub preload: Names,
    /// The hart that loads.
    pub hart: HartId,
    /// The serial of the first new object.
    pub next: Serial,
    /// Whether the object is the program.
    pub program: bool,
    /// Whether the new objects search their own libraries first (RTLD_DEEPBIND).
    pub deep: bool,
}

/// What a load brings: the object that was asked for, the new objects in load order, and the
/// objects that the root leads to.
#[derive(Drop)]
pub struct LoadPlan {
    pub root: Serial,
    pub added: Added,
    pub breadth: Serials,
}

/// Why a load brings nothing.
#[derive(Debug, Drop, Error)]
pub enum LoadFault {
    #[error("the load is refused")]
    Refused(DlFault),
    /// Another hart opens or closes an object that the load needs.
    #[error("the load has to wait")]
    Wait(Shown),
    #[error("out of memory")]
    Memory,
}

impl From<AllocError> for LoadFault {
    ghost from_gives = { λ _ fault. fault ≡ Memory };

    fn from(_error: AllocError) -> Self {
        LoadFault::Memory
    }
}

impl<T: Drop> From<AllocFailed<T>> for LoadFault {
    ghost from_gives = { λ _ fault. fault ≡ Memory };

    fn from(_error: AllocFailed<T>) -> Self {
        LoadFault::Memory
    }
}
