//! What a reader gives is what images and the history ask for.
//!
//! `seg_image` makes the image of an object and `relocator` relocates it. Both ask that the object is
//! `Accepted`: facts about an object by itself, so that neither has to know a file. [`one_image`] says
//! that each object has them that `elf_object` reads of a file, be it the program or a library, so
//! that whoever reads an object may make its image.
//!
//! The laws of memory of `history_state` ask for more, `IsAccepted`: that the word which the file has for
//! a slot leads to code. [`accepted_object`] says that these objects have that too.
mod law;

pub use law::{accepted_object, one_image};
