//! Traces judged: whether the lines of a text are those of a legal, whole history of a run.
//!
//! [`check_trace`] takes in the events of the lines one after another, each compared with the event that may come.
//! What is promised: it says legal of such texts alone; it refuses a line only where that is the first that is wrong,
//! or, where no files are told, an opening's that loads a name; and where files are told, at most one event that may
//! come next has a line ([`one_event`]), and a text is judged one way at most ([`one_verdict`]).
#![tactic(auto)]

mod check;
mod harts;
mod law;
mod lines;
mod taking;
mod verdict;

pub use check::check_trace;
pub use law::{one_event, one_verdict};
pub use verdict::{CheckFault, TraceCause};
