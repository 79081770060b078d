//! What the linker's calls are handed and what they hand out: plain types.
//!
//! [`Installs`] is what guest memory gets from an opening: the images of new objects, where their slots
//! stand, and pages that harts write. [`Served`] is what came of a call of a hart, [`Setup`] what a run
//! is given and [`Started`] what startup makes of it.
//!
//! There is no code: a contract sees each type as the record of its fields.
mod installs;
mod served;
mod startup;

pub use installs::{Installs, SlotWord, SlotWords};
pub use served::Served;
pub use startup::{Setup, StartFault, Started};
