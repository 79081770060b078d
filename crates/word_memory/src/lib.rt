//! Guest memory as atomic words that harts on threads share.
//!
//! [`Memory`] is a table of atomic words under the rule of `word_rule`: of each doubleword its value
//! and its control word, the rows between the linker and the harts, the count and the generation.
//! Whoever steps on it has a seat: a [`HartSeat`] for each hart, and one for the linker's keeper
//! ([`KeeperSeat`]); `word_seats` makes them. Each step is one of the kinds of `word_rule`
//! (`word_steps`), by the accesses and changes of `word_access`.
//!
//! [`TableBus`] is that memory as a hart's bus. It appends each call to the trail in the seat's view at
//! the step that found the answer or made the store.
//!
//! No call of a bus takes memory or waits: a doubleword that another seat has locked, or that changed
//! under the call, is answered by `Again`.
//!
//! `word_seats` makes a new memory with its seats.
#![tactic(auto)]

mod bus;
mod keeper;
mod seat;
mod word_seats;

pub use bus::TableBus;
pub use keeper::{
    KeeperSeat, count_up, has_role, is_slot, join_hart, latest_generation, retire, set_generation,
    set_word, tell,
};
pub use seat::{HartSeat, generation};
pub use word_seats::{HartSeats, Seats, name_memory};
pub use word_steps::{Fresh, Memory, Naming, Trails, place_at, row_word, state_word, value_word};
