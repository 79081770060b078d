//! A run's journal, shown to people and to other programs.
//!
//! [`read_journal`] reads the lines of a journal, or tells the number of the first that is no event's.
//! [`members_of`] gives the objects that its openings loaded, and who has their files puts what they say
//! into [`Member`]: then symbols and slots have names. [`view`] writes the journal in one of its forms.
//!
//! A name of an object or a symbol is written as the journal writes it: a byte that isn't visible is
//! `%` and two digits. So but for what the guest wrote all texts are ASCII, whatever bytes the journal
//! and the files have.
//!
//! `words` has events in words, `json`, `graph` and `picture` the other forms.
#![tactic(auto)]

mod fault;
mod graph;
mod journal;
mod json;
mod members;
mod names;
mod picture;
mod reading;
mod shown;
mod words;

pub use fault::ViewFault;
pub use journal::{Journal, Made, Step, Steps};
pub use members::{Member, Members, members_of};
pub use reading::read_journal;
pub use shown::{Form, view};
