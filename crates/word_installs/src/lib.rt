//! Words that come and go of memory that harts share, as the linker's keeper puts them there and takes
//! them away.
//!
//! [`install`] puts the words of new objects, stacks, static areas and blocks into memory: all but slots
//! first, so that a slot never leads to a word that isn't there. [`unmap`] takes the words of pages away:
//! the slots first, so that no word goes that a slot may lead to. Each sets the generation of the TLS
//! modules: an installation behind its words, an unmapping before them.
//!
//! Neither takes memory. A word that is put there had no role before, so no hart has locked it and an
//! installation doesn't wait; an unmapping waits for a word that a hart has locked.
//!
//! The laws say that by an event of the journal they may be done, and that the keeper's view is that of
//! the state after it.
#![tactic(auto)]

mod installing;
mod law;
mod unmapping;

pub use installing::install;
pub use law::{installs_remake, startup_is_kept, unmappings_remake};
pub use unmapping::unmap;
