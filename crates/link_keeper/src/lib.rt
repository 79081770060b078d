//! The linker's state behind its lock, for harts on threads.
//!
//! A [`Keeper`] has the linker's state, the keeper's seat at the shared words, and what openings read, all
//! behind one lock. Whenever the lock is free the journal is a legal history and the keeper's view is that
//! of its state (`specs/Keeping.antt`). Harts on threads ask it as their
//! [`Linker`](hart_linker::Linker). Once all of them have ended, [`finish`] ends the run.
//!
//! What a hart brings is a fact about what it has heard, which it has again afterwards; `hart_linker` has it,
//! and what a turn comes to, in the terms of whoever adds it to the hart's way.
#![tactic(auto)]

mod acting;
mod attending;
mod beginning;
mod blocks;
mod ends;
mod entries;
mod finalising;
mod finishing;
mod handing;
mod hearing;
mod keeping;
mod passing;
mod remaking;
mod rows;
mod serving;
mod settling;

pub use finishing::finish;
pub use keeping::Keeper;
