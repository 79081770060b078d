//! Copies of the records that an event and the linker's state both hold.
//!
//! What an opening brings stands in its event and in the namespace that it changes, and what is
//! refused stands in its event and in what dlerror is to tell, so each is had twice.
//!
//! What is promised: a copy is the same value ([`Copied`]). The one answer besides is want of memory.
mod copied;
mod fault;
mod list;
mod loaded;
mod object;
mod table;

pub use copied::Copied;
