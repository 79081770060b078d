//! Lists that the linker keeps beside its journal: grants, edges, late blocks, what an opening notes.
//!
//! Each changes as the history's state does (`history_state`), and none takes memory where room was made
//! before. [`Copied`] copies the records that an event and the state both hold, and [`KnownObjects`] has
//! records of files that say the same share memory.
#![tactic(auto)]

mod held_edges;
mod late_blocks;
mod link_pending;
mod load_record;
mod open_flags;
mod record_copies;
mod record_shares;

pub use held_edges::HeldEdges;
pub use late_blocks::LateBlocks;
pub use link_pending::{OpenGrants, Unfinished};
pub use load_record::LoadRecord;
pub use open_flags::{are_flags, is_deepbind, is_global, is_nodelete, is_noload, is_now};
pub use record_copies::Copied;
pub use record_shares::KnownObjects;
