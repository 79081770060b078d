//! Which functions an opening brings, and in which order a closing's run.
//!
//! [`ConstructorRooms`] has the order in which the constructors of new objects run, and room for their
//! addresses. Both are there before the opening is made, since the objects' files settle them; once their
//! images are there [`ConstructorRooms::fill`] takes no memory. [`destructor_order`] has the order in which a
//! closing's destructors run (gABI, "Initialization and Termination Functions").
mod order;
mod rooms;

pub use order::{constructor_order, destructor_order};
pub use rooms::ConstructorRooms;
