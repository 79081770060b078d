//! What the commands write, apart from how they come to it.
//!
//! [`bind_objects`] is what `bind` writes of a namespace whose objects are all there, or the one reference
//! for which it refuses them. [`dump_text`] is what `dump` writes of an object.
//!
//! Each text is the definition's, byte for byte, or there was no memory for it.
#![tactic(auto)]

mod dump_lines;
mod lines;
mod objects;
mod references;
mod refusal;

pub use dump_lines::dump_text;
pub use objects::{Binding, bind_objects};
