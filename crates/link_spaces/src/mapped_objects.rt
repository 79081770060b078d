//! The mapped objects of namespaces by their serials, and what a choice of a definition comes to.
//!
//! [`object_in`] and [`home_in`] find an object and its namespace, by its serial, and [`namespace_in`] a
//! namespace by its number; [`has_object`] is whether a namespace has an object. [`address_of`] is the address
//! of a choice, and [`leads_to_code`] says whether a slot may be bound to it; [`definition_in`] and
//! [`is_code_in`] are the same of one object that is at hand.
mod addresses;
mod objects;

pub use addresses::{address_of, definition_in, is_code_in, leads_to_code};
pub use objects::{has_object, home_in, namespace_in, object_in};
