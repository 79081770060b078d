//! How large the object of a source is: laws.
//!
//! - [`parts_end_low`]: each part ends below 2^62.
//! - [`packed_places_stand_behind`]: no place that is packed stands before the third segment.
//! - [`objects_are_whole`]: so each part has its bytes at its place, as the laws of objects ask for.
//! - [`object_has_its_size`]: the object has as many bytes as it is judged too big by.
//! - [`denoted_objects_are_small`]: what a source denotes has 8 MiB at most; [`parts_are_within_the_object`]: so has each
//!   part whose bytes stand in it.
mod law;

pub use law::{
    denoted_objects_are_small, object_has_its_size, objects_are_whole, packed_places_stand_behind,
    parts_are_within_the_object, parts_end_low,
};
