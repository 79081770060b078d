//! The words of the command line.
//!
//! [`Command`] is what they can ask for. `specs/Reads.antt` says which command words are: `Reads`, a line
//! a command, over the pieces that the words behind it say (`specs/Options.antt`) and what the values of
//! options say (`specs/Values.antt`).
//!
//! There is no code but laws: functions without a body, whose contract is the law.
#![tactic(auto)]

mod command;
mod law;
mod switch;

pub use command::{Bind, Check, Command, Run, Turns};
pub use law::{words_are_commands, words_are_none, words_are_one_command, words_say_once};
pub use switch::Switch;
