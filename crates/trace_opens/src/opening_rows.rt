//! The one event that a line of an opening may be.
//!
//! [`expected_open`] works out what the history gives an opening that asks so, over the lists of a history: the
//! opening whose event may come, with what its new objects choose. Startup's opening is asked for while nothing
//! was loaded; the null name is the program's; a name is looked for and planned. A line that tells of a failed
//! read is another question, since a history leaves open which reads fail: may one fail at this path?
mod answers;
mod asking;
mod expecting;
mod finding;
mod law;
mod starting;

pub use expecting::expected_open;
