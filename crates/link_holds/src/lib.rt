//! The lists beside the linker's journal, several of them at once.
//!
//! `specs/Holding` says that all lists are those of the state after the journal, with room for what is owed;
//! `specs/Lemmas` that they are so again after each kind of change. The code makes room in several lists before
//! anything changes, makes those changes that touch more than one list, and the events of the calls.
//! [`prepare`] makes all that an opening brings before anything changes.
#![tactic(auto)]

mod beginning;
mod closing;
mod events;
mod granting;
mod opening;
mod opening_brings;
mod refusing;
mod settling;
mod storing;

pub use beginning::{base_namespaces, nothing};
pub use closing::{fixed_roots, room_for_closing};
pub use events::{
    absent_event, closing_event, end_event, found_event, grant_event, opened_event, refusal_event,
    settled_event, unresolved_event,
};
pub use granting::{granted, is_missing, open_grant, room_for_grant};
pub use opening::{OpeningCounts, room_for_opening};
pub use opening_brings::{
    Brings, Planned, areas_are_installed, areas_of, prepare, static_blocks_fit,
};
pub use refusing::{kept_copy, room_for_refusal};
pub use settling::hold;
pub use storing::store_block;
