//! Which event of a history a line may be, and whether a history is whole.
//!
//! A line says all of its event, but for an opening's, which `trace_opens` works out. So the one question is
//! whether that event may come next, behind the history that a [`Replay`](trace_replay::Replay) shows.
//! [`expected`] answers it. Where the state settles what comes of a call (a closing, a look-up, a block, a slot),
//! the answer is worked out of the lists and compared with the line's; other lines are tested. [`says_open`] tells
//! whether a line says what an opening is.
//!
//! What is promised: the event of a line that is given may come, whatever the run is given; where none is, no event
//! that has the line may. [`is_whole`] is so exactly where the history is whole.
#![tactic(auto)]

mod expecting;
mod rows;
mod said;
mod whole;

pub use expecting::expected;
pub use said::says_open;
pub use whole::is_whole;
