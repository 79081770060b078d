//! What an opening that may come next has: each new object can be placed and relocated, and its
//! bindings are those that are seen in its namespace.
//!
//! There is no code but laws, functions without a body, whose contract is the law. They tie what
//! `link_open_images` makes of new objects to the history's state: with
//! [`openings_relocate`] images can be made before the opening is, and by [`relocated_are_installs`] they
//! are what memory gets.
//!
//! `opening_follows` has the laws of what an opening leads to.
#![tactic(auto)]

mod law;
mod opening_follows;

pub use law::{
    copies_are_seen, images_are_installs, images_relocate, libraries_have_no_copies,
    new_bindings_are_seen, new_objects_are_placed, openings_relocate, relocated_are_installs,
    relocated_are_of_records, uncopied_are_seen,
};
pub use opening_follows::{
    closings_take_as_much, new_images_are_found, new_images_are_prepared, new_modules_have_places,
    new_ranges_are_laid,
};
