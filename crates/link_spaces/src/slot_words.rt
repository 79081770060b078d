//! What a slot may hold: whether an address of an object is code, and the word that the file has for it.
//!
//! `seg_image` makes whole images; a grant asks for one word of an object, and whether one address of
//! another is code, so both are read of the object's segments here.
mod words;

pub use words::{is_code, moved_word};
