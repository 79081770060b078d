//! What the linker's keeper keeps of memory that harts share, while harts run on threads.
//!
//! The keeper's view of the words (`word_rule`) and its journal go together: roles, first words and lazy
//! words are those of the journal's state, each grant that stands is one of its grants, and each entry
//! that a hart was handed is true of the journal. `specs/Kept.antt` has the record that holds whenever the
//! keeper's lock is free. [`fates_settle`] says how a grant is settled by what was asked, [`states_stay`]
//! and [`remade_stays`] what each event and what was put into memory leave, and [`entries_are_events`] that
//! a hart's entries are its events.
//!
//! The whole record stays while calls are served: [`records_stay`] where an event leaves memory,
//! [`remade_is_kept`] where one remakes it, [`grants_are_posted`] where a grant is made, and
//! [`asks_settle`] where grants are asked for. Once all of them are known, the journal is a whole history,
//! and harts' trails say what it says ([`run_is_over`], [`fetches_are_code`]).
//!
//! There is no code but laws: functions without a body, whose contract is the law.
#![tactic(auto)]

mod law;

pub use law::{
    asks_settle, entries_are_events, fates_settle, fetches_are_code, grants_are_posted,
    records_stay, remade_is_kept, remade_stays, run_is_over, states_stay,
};
