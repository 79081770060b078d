//! A history played again, event by event, into lists that show the state after it.
//!
//! [`Replay`] has the lists of the linker's state (`history_state`), as far as it settles which event may come
//! next. It keeps no journal: contracts speak of each lawful history whose state the lists are. A caller shows
//! that an event may come, and has it taken in.
#![tactic(auto)]

mod blocks;
mod grants;
mod replay;
mod steps;
mod tables;

pub use blocks::{block_pages, block_residue};
pub use grants::GrantTable;
pub use replay::Replay;
pub use steps::have_exited;
