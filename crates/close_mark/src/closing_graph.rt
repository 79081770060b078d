//! The graph that says what a closing takes.
//!
//! A closing unmaps the objects of its namespace that no chain of edges leads to from a root, once one
//! opening less of its handle counts. [`opened_in`] finds the namespace, [`edges_of`] and [`roots_of`] make
//! the graph; of what an opening leads to its root alone is one here, since edges lead to the rest.
mod edges;
mod opened;
mod roots;

pub use edges::edges_of;
pub use opened::opened_in;
pub use roots::roots_of;
