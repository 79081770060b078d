//! How the keeper and the harts hand one another calls, entries and grants.
//!
//! A hart begins a call ([`begin_call`]). The keeper finds it calling ([`calling`]) and hands an entry
//! over in the hart's row ([`hand`], or [`post`] for a grant). The hart finds the row its own
//! ([`arrived`]), reads it ([`read_row`]) and takes the entry ([`accept`]). Of a grant it exchanges the
//! slot's word ([`bind`]) and gives the row back as won or lost ([`done`]), and the keeper asks what came
//! of it ([`ask`]). [`tell`] tells a hart between two calls, or one that has read its row, of the keeper's events.
//!
//! Each call is one or a few of the steps of `word_rule`, so the rule holds between any two of them. None
//! takes memory or waits.
#![tactic(auto)]

mod call;
mod row;
mod slot;

pub use call::{accept, arrived, begin_call, read_row};
pub use row::{calling, hand, post};
pub use slot::{Asked, Bound, ask, bind, done, look, take};
pub use word_memory::tell;
