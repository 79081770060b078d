//! Which objects a closing takes.
//!
//! [`closing_set`] marks what the roots of a state lead to once one opening less of a handle counts, and
//! gives the other objects of the handle's namespace, in load order. It changes nothing.
mod taking;

pub use taking::closing_set;
