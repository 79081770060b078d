//! What new objects put into guest memory.
//!
//! [`images_of`] makes the image of each new object and relocates it by what its relocations choose;
//! libraries come before the program, whose copies take their bytes. [`slots_of`] says where slots stand.
//!
//! What is promised: each image is that of one definition (`AreRelocated` in specs/), and slots are those
//! of the objects, in load order.
//!
//! `area_images` makes the images of static areas and blocks, `new_blocks` a late block, `object_bindings` what an
//! object's relocations come to, `opening_steps` the modules and edges of an opening.
#![tactic(auto)]

mod area_images;
mod images;
mod new_blocks;
mod object_bindings;
mod opening_steps;
mod slots;

pub use area_images::area_image;
pub use images::images_of;
pub use new_blocks::{
    BlockFault, NewBlock, areas_have_words, blocks_begin_as_kept, harts_have_new_blocks, new_block,
    new_blocks_are_installed,
};
pub use opening_steps::{edges_of, hold_all, keep_all, modules_with, parts_of, reserve_all};
pub use slots::slots_of;
