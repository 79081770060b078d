//! What the relocations of new objects choose when they are loaded.
//!
//! [`choose`] looks each relocation of the new objects up in the namespace as the opening will leave it,
//! before anything has changed: DT_RELA first and then, where slots are bound at load, the slots. It gives
//! the choices, or the first refusal in load order: a symbol without a definition, a slot that would not
//! lead to code, or a thread-local variable without an offset in the static blocks (psABI, "Relocations";
//! dlopen(3)).
mod choosing;
mod faults;
mod sight;

pub use choosing::{ChoiceFault, choose};
