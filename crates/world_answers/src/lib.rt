//! What the linker answers the call that a hart's next turn is, and what the answer makes of its hart.
//!
//! [`answer`] asks the hart what its next turn is. An opening that waits for another hart's object is none
//! while [`awaited`] says that it waits. Where the turn is a service it makes the call over the
//! linker's state: the call's events, and the end of a hart that the call brings, stand in the journal
//! then. What came of the call is its answer ([`Answered`](world_memory::Answered)): the value with which
//! it returns, the functions that are to run first, the slot that is granted, the text that is told, that
//! it has to be made again, or how the hart has ended; and what memory gets of the events.
//! [`answer_with_room`] makes room first for the functions that a call may have the hart run.
//!
//! [`take_answer`] is what the answer makes of its hart, [`complete`] the turn in which the functions of an
//! object have run, and [`FinalTurn`] one of the final destructors: for harts of any world.
//!
//! `guests` has the turns of a run on one thread: over the linker's state, plain memory and all its harts.
#![tactic(auto)]

mod answering;
mod callers;
mod closing;
mod ending;
mod granting;
mod guests;
mod law;
mod locating;
mod looking;
mod opening;
mod returns;
mod served;
mod telling;
mod waiting;
mod writing;

pub use answering::answer;
pub use guests::{
    Beginning, Turn, answer_with_room, begin_finals, end_hart, ends_are_turns, guests_may_turn,
    guests_take_turns, refusals_are_counted, runs_stay, take_final, take_quiet, take_service,
};
pub use law::ends_are_few;
pub use locating::tls_end;
pub use returns::{
    FinalTurn, begin, complete, finals_go_on, settle_all, settling_keeps_finals, take_answer,
};
pub use waiting::awaited;
