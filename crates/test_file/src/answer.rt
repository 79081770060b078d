//! Answers, as they are written.

use crate::Fault;
use std::alloc::Global;
use std::fmt::Debug;

/// An answer as it is written.
pub fn show<T: Debug + Copy>(alloc: Global, answer: T) -> Result<String, Fault> {
    Ok(format!(in alloc; "{answer:?}")?)
}

/// An answer that may be none.
pub fn show_some<T: Debug + Copy>(alloc: Global, answer: Option<T>) -> Result<String, Fault> {
    match answer {
        Some(answer) => show(alloc, answer),
        None => Ok(String::from_str(alloc, "none")?),
    }
}
