//! The words of the command line, read.
//!
//! [`read_command`] gives the command that words are, with its values, or that they are none. The words are
//! judged here, without memory: which say options of their command, each at most once and with a value that it
//! may have, and as many other words as it has. What passes goes to the kit's reader of command lines, which
//! takes it, and the values are those of its matches.
//!
//! `decimals` reads decimal numbers, `schedule_read` schedules, `said_words` judges words, `clap_words` hands them to
//! the kit's reader.
#![tactic(auto)]

mod arguments;
mod clap_words;
mod decimals;
mod fault;
mod found;
mod judged;
mod read;
mod said_words;
mod schedule_read;
mod taken;
mod values;
mod verb;

pub use clap_words::{Form, words_are_taken};
pub use decimals::decimal_number;
pub use fault::WordsFault;
pub use read::read_command;
pub use said_words::Said;
pub use schedule_read::{TurnsFault, read_turns};
