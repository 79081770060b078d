//! What the name of an opening leads to.
//!
//! [`find`] finds the object that dlopen's name stands for, with what has to be loaded for it, in a namespace
//! as it is before the opening (dlopen(3)): with RTLD_NOLOAD an object that is there, and nothing is read; else
//! what a load brings. It changes nothing.
//!
//! What is promised: what is found, or why nothing is, is what the history asks of an opening's first stage,
//! whatever state the namespace is of.
mod finding;

pub use finding::{Found, find};
