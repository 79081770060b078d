//! Which object's pages hold an address.
//!
//! [`holder_in`] finds it among the objects of namespaces, with the number of its namespace. The pages
//! of an object are all from its first to its last, gaps too.
mod holding;

pub use holding::holder_in;
