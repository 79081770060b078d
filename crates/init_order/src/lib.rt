//! In what order objects are initialised and finalised.
//!
//! An object waits for those that it leads to and that don't lead back. [`components_of`] tells which
//! lead to one another, and numbers them so that nothing waits for a later one. [`init_order`] is the
//! order in which constructors run: a component opens when all that it leads to has been initialised,
//! and of the objects whose component is open the first is the next. [`fini_order`] is the reverse of
//! the order in which objects were initialised.
#![tactic(auto)]

mod components;
mod init;
mod needs;
mod order;
mod tasks;
mod walk;

pub use components::{Components, components_of};
pub use init::init_order;
pub use order::fini_order;
