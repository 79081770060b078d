//! What an opening that may come next leaves, and what its new objects have in the state after it.
//!
//! There is no code but laws, functions without a body, whose contract is the law: modules have the
//! places that they get one after another, ranges are free one after another, closings that wait take as
//! much with them as before, and images that are relocated as `link_open_images` does it are those that the
//! state after the opening has.
mod law;

pub use law::{
    closings_take_as_much, new_images_are_found, new_images_are_prepared, new_modules_have_places,
    new_ranges_are_laid,
};
