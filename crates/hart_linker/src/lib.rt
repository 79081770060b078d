//! What harts on threads ask of their linker.
//!
//! [`Linker`] is the linker of a run as its harts call it, each on a thread of its own. A call says what a
//! hart's turn comes to over the journal that the hart knows then (`specs/Serving.antt`, `specs/Finals.antt`).
//! Between two turns a hart keeps what `specs/Between.antt` has: that what it heard is a legal history, that
//! it fits it, where its calls stand, and which blocks of thread-local storage it keeps ([`HartBlocks`]).
//! [`RunNaming`] names a run.
#![tactic(auto)]

mod blocks;
mod finals;
mod linker;

pub use blocks::HartBlocks;
pub use finals::Beginning;
pub use linker::{Linker, RunNaming};
