//! What a look-up of a symbol reads of the linker's lists.
//!
//! [`symbol_ask`] is what a look-up asks for, and [`find_symbol`] searches a name where dlsym and dlvsym do,
//! and says why nothing is found. [`variable_in`] is the value of a definition's symbol if that is of
//! thread-local storage, and [`block_in`] is where a hart has its block of an object's thread-local storage.
//! They change nothing.
#![tactic(auto)]

mod asking;
mod blocks;
mod finding;
mod searching;
mod symbols;

pub use asking::symbol_ask;
pub use blocks::block_in;
pub use finding::{SymFault, find_symbol};
pub use symbols::variable_in;
