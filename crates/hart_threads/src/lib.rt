//! Harts that run on threads, beside their linker.
//!
//! What a hart does without the linker takes no lock: instructions and copies over shared memory
//! ([`take_quiet`]), the exchange of a slot that it was granted ([`bind_slot`]), and requests of
//! thread-local storage whose block it keeps ([`kept_block`]). Each leaves in the hart's trail what the
//! table of turns says of it. [`HartRun`] is a hart of a run, and its loop. Of the harts of a run the first one
//! runs alone until startup's constructors are over ([`start_harts`]), and then all run to their ends
//! ([`run_harts`]).
#![tactic(auto)]

mod binding;
mod finals;
mod harts;
mod keeping;
mod law;
mod next;
mod quiet;
mod run;

pub use binding::bind_slot;
pub use harts::{run_harts, start_harts};
pub use keeping::kept_block;
pub use law::ways_are_whole;
pub use next::{Next, next_turn};
pub use quiet::take_quiet;
pub use run::HartRun;
