//! What a linker keeps of the images of mapped objects, once they are in guest memory.
//!
//! [`ImageParts`] has, for each image, where the object's destructors are, and the bytes with which a
//! block of its thread-local storage begins: both are taken from the image as it was relocated.
//!
//! `image_reads` reads words and bytes of an image, `object_functions` finds the constructors and destructors of
//! an object in it.
#![tactic(auto)]

mod image_reads;
mod law;
mod object_functions;
mod parts;

pub use image_reads::{
    bytes_of, constructor_count, destructors, part_of, preinit_count, push_constructors,
    push_preinits, word_at,
};
pub use law::parts_go;
pub use object_functions::{ConstructorRooms, constructor_order, destructor_order};
pub use parts::{ImageParts, Part};
