//! Words behind a command, judged.
//!
//! [`Said::of`] tells whether words say options of a command, each at most once, and what they say then: the
//! value of each option, and the other words. What a value may be it doesn't ask, but that there is one where
//! the option has one. It takes no memory.
mod front;
mod option;
mod said;

pub use said::Said;
