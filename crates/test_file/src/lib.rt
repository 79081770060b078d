//! Plain files of tests: how their numbers are written, and what is said of them.
//!
//! Programs that run tests read such files line by line. What is behind a `#` is a remark. A
//! [`Report`] has a line for each test that doesn't hold and for each line that can't be read, and
//! ends with a line for the file. A [`Sheet`] is a file each of whose lines is a call, with the answer
//! that it has to give: a program names its calls by [`Calls`].
#![tactic(auto)]

mod answer;
mod fault;
mod number;
mod report;
mod sheet;
mod source;
mod words;

pub use answer::{show, show_some};
pub use fault::Fault;
pub use number::whole;
pub use report::Report;
pub use sheet::{Calls, Sheet, said_of};
pub use source::{bytes_at, text_at, without_remark};
pub use words::Words;
