//! What the calls of a linker promise, and the laws that they stand on: definitions and laws, no code.
//!
//! `history_calls` says what a call gives in each state. Here stands what a contract says beside that:
//! whichever run the state is of (`specs/Coming.antt`), that nobody but the library can be the cause of
//! a failed read or of a missing file (`specs/Counts.antt`), when nothing is read, and when an opening
//! opens.
//!
//! The laws are functions without a body, whose contract is the law.
mod law;
mod worked;

pub use law::{
    closings_keep, executable_by_holder, new_objects_stand_behind, nothing_leads_nowhere,
    only_failed_reads_stop, own_order_is_the_order, refused_by_asking,
};
pub use worked::{counts_show, reads_only_if_it_has_to, refusals_are_told_apart};
