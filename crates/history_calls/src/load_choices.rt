//! What an object's relocations choose when it is loaded, as a list.
//!
//! - `specs/Choices`: one choice a relocation, those of DT_RELA before those of slots; a slot that stays
//!   lazy chooses nothing, and has WeakZero.
