//! All that an opening brings, made before anything changes.
//!
//! [`prepare`] makes of an opening that may come next the images of its new objects, with what is kept of
//! them, the edges to what their relocations chose, and the modules with theirs.
//!
//! What is promised: each is what the state after the opening has (`IsBrought` in specs/).
//!
//! `startup_areas` has what startup brings besides: stacks and static areas.

mod bringing;
mod images;
mod startup_areas;

pub use bringing::{Brings, Planned, prepare};
pub use startup_areas::{areas_are_installed, areas_of, static_blocks_fit};
