//! The guest memory of a run on one thread.
//!
//! [`PlainMemory`] has the doublewords of guest memory side by side. It is the bus of a hart; it makes the
//! exchange of a slot; and [`PlainMemory::apply`] puts the pages there that an event reserves, or takes away
//! those that one takes. No call but [`PlainMemory::new`] takes memory.
//!
//! `turn_answers` has what a turn is answered and what memory gets of it, `turn_parts` laws of the parts of a turn.
#![tactic(auto)]

mod bus;
mod changes;
mod memory;
mod turn_answers;
mod turn_parts;

pub use memory::PlainMemory;
pub use turn_answers::{Answered, MemoryChange};
pub use turn_parts::{freed_harts_move, others_leave_memory, settling_may_come};
