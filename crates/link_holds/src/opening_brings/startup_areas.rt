//! The pages for data that startup reserves beside its objects: a stack for each hart, and a static area
//! with the hart's static blocks of thread-local storage.
//!
//! [`areas_of`] makes their images before startup's opening is carried out, of what is kept of the images
//! of its objects. By the law [`areas_are_installed`] they are what memory gets, and a later opening
//! reserves no such pages; by [`static_blocks_fit`] the blocks fit into an area, each apart from the others.
mod areas;
mod blocks;
mod law;

pub use areas::areas_of;
pub use law::{areas_are_installed, static_blocks_fit};
