//! What the linker's answer makes of a hart, and the turn in which the functions of an object have run.
//!
//! [`take_answer`] takes the turn of a hart whose call the linker has answered: the call returns, waits or
//! is over, a slot is offered, or functions are to run first. [`complete`] takes the turn in which the
//! constructors or destructors of an object have run. Both note the objects without functions that pass
//! with it. Each is a row of the table of `hart_moves`.
//!
//! [`settle_all`] comes before a service of any hart, and once at the end of a run: each grant whose hart is
//! done with it is settled, in order of the harts' numbers. None of the three takes memory.
//!
//! `final_turns` has the turns of the final destructors.

mod answer;
mod completion;
mod final_turns;
mod noting;
mod returning;
mod settling;

pub use answer::take_answer;
pub use completion::complete;
pub use final_turns::{FinalTurn, begin, finals_go_on, settling_keeps_finals};
pub use settling::settle_all;
