//! What the kit's reader of command lines makes of words that are a command's.
//!
//! [`Form`] says which options and how many other words a command has, and `specs/Forms.antt` the
//! arguments that it is told of. [`words_are_taken`] is the law: it takes words that say each option once
//! and have as many other words, and its matches have their values.
//!
//! There is no code but the law: a function without a body, whose contract is the law.
mod form;
mod law;

pub use form::Form;
pub use law::words_are_taken;
