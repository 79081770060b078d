//! What an unmapping waits for, and the modules that it takes away.
//!
//! [`holding`] gives the open grant that holds objects in memory: the first that touches one of them, which
//! is the least ([`first_is_least`]). [`remove_modules`] removes the modules of objects. Neither takes memory.
mod gone;
mod held;
mod law;

pub use gone::remove_modules;
pub use held::holding;
pub use law::first_is_least;
