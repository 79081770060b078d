//! The image of an object before its relocation: the words of its pages, each with its role.
//!
//! An object's segments lie in pages, from the first page of the first one to the last page of the
//! last one, gaps too. [`make_image`] gives the words of all these pages, in order: the file's bytes
//! at their addresses and zeros everywhere else, and for each doubleword what it may be used for.
//! [`low_of`], [`pages_of`] and [`align_of`] say where the pages begin, how many there are and what
//! alignment they ask for, so that whoever places an object can find it room. [`role_of`] and
//! [`file_word`] read a single word, without an image.
//!
//! What is promised: each word of the image is that of one definition, `IsImage` in specs/, which
//! gives value and role for every address of the pages, so that no byte is left unsaid. Definitions
//! speak of the object's own addresses; `guest_address` and `own_address` lead to guest memory and
//! back. What is asked of the object is `Accepted`, facts that hold of each object that a reader
//! gave.
#![tactic(auto)]

mod image;
mod law;
mod making;
mod pages;
mod reading;

pub use image::{Image, Images, Word, Words};
pub use law::pages_hold_segments;
pub use making::make_image;
pub use pages::{align_of, index_of, low_of, pages_of};
pub use reading::{file_word, role_of};
