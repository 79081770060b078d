//! What a reference comes to whose objects the linker has: by search lists, in one look-up each.
//!
//! [`address_of`] and [`leads_to_code`] tell of a choice that was made, [`slot_choice`] makes the one that a
//! call through the procedure linkage table asks for.
#![tactic(auto)]

mod seen_choices;
mod slot_choosing;

pub use seen_choices::{address_of, leads_to_code};
pub use slot_choosing::{SlotChoice, SlotFault, slot_choice};
