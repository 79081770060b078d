//! The linker's state, which changes in place: each change is an event of its journal.
//!
//! [`LinkState`] has the journal of a run so far and the lists that are the state after it
//! (`history_state`). Contracts see the number of harts, the events, and what the latest look-up put into
//! memory; that the lists are those of the state is the type's own business. A call appends its event,
//! one that may come next (a look-up's new block first, where it makes one), or leaves the events as
//! they are.
#![tactic(auto)]

mod faults;
mod state;

pub use faults::{CloseFault, GrantFault, TlsFault};
pub use link_search::SymFault;
pub use state::LinkState;
