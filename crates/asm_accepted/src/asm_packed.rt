//! The packed places of a source's object: laws.
//!
//! - [`packed_places_ascend`]: they are even and ascend.
mod law;

pub use law::packed_places_ascend;
