//! What a slot of a mapped object would be bound to now.
//!
//! [`slot_choice`] finds the slot that a call through the procedure linkage table asks for, by its object's
//! serial and eight times its number, and tells what it chooses, what that comes to, and whether the slot
//! may be bound to it. It looks that up in search lists (`sym_lookup`), and changes nothing.
mod choosing;

pub use choosing::{SlotChoice, SlotFault, slot_choice};
