//! New blocks of thread-local storage: where they stand, and what they put into memory.
//!
//! [`new_block`] finds the pages of a hart's block of an object's module, the first that have room, and
//! makes their words of the bytes that the object gives; it reserves nothing. By the law
//! [`new_blocks_are_installed`] these words are what memory gets, and by [`harts_have_new_blocks`] the hart
//! has the block then. By [`blocks_begin_as_kept`] what is kept of an object's image is what its blocks begin
//! with, and by [`areas_have_words`] any pages for data have the words of the bytes that were put there first.
mod law;
mod placing;

pub use law::{
    areas_have_words, blocks_begin_as_kept, harts_have_new_blocks, new_blocks_are_installed,
};
pub use placing::{BlockFault, NewBlock, new_block};
