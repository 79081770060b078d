//! The journal of a linker, which is a lawful history: each event was one that may come next.
//!
//! [`LawfulJournal`] is a journal with the number of harts whose run it is. An event is put at its end
//! only where it may come next (`history_state`), by a machine that reads objects as `elf_object` does;
//! so whoever has the journal knows that it is lawful, and what each state of it has.
//!
//! `accepted_image` says that what `elf_object` reads is lawful, and `link_harts` keeps beside the journal what
//! each hart was refused.
#![tactic(auto)]

mod accepted_image;
mod journal;
mod link_harts;

pub use accepted_image::{accepted_object, one_image};
pub use journal::LawfulJournal;
pub use link_harts::{KeptFaults, each_hart_ends};
