//! The command `ldso`: which definition each procedure linkage slot of a program gets, what an object
//! holds, the object that an assembler source denotes, what a program does when it runs, whether the trace
//! of a run is legal, and a run of libraries that a number makes.
//!
//! [`ldso`] is the whole of it, over any library of files and any sink of bytes. Which command words are
//! stands in `cli_words`, and what its texts are in `cli_text`.
#![tactic(auto)]

mod answer;
mod asm;
mod bind;
mod check;
mod dump;
mod generate;
mod law;
mod outcome;
mod play;
mod threads;
mod top;
mod turns;

pub use law::{one_answer, one_end, one_judgement, one_text};
pub use outcome::{Cause, End, Outcome};
pub use top::ldso;
