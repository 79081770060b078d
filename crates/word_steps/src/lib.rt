//! The steps on guest memory as atomic words, one by one.
//!
//! [`Memory`] is a table of atomic words under the rule of `word_rule`. Who steps on it has a seat: a
//! [`Hand`] for each hart, and a [`Desk`] for the linker's keeper. Each step is one of the kinds of
//! `word_rule`: the four functions of the module `steps` are the only ones that touch the table, and
//! each asks that its word and its operation are those of the kind.
//!
//! `word_access` puts a hart's accesses and the keeper's changes together of these steps: the changes are those
//! of a doubleword.
#![tactic(auto)]

mod desk;
mod hand;
mod layout;
mod memory;
mod notes;
mod trails;

pub use desk::Desk;
pub use hand::Hand;
pub use layout::{
    COUNT, DOUBLEWORDS, FIRST_ADDRESS, GENERATION, LOCK, QUIET, code_of, control_word, is_locked,
    place_at, role_of, row_word, state_word, value_word, version_of,
};
pub use memory::{Fresh, Memory, Naming};
pub use trails::Trails;
