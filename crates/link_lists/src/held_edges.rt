//! What loaded objects and bound slots hold of other objects.
//!
//! [`HeldEdges`] has an edge for each object that a relocation chose at load and for each object that a
//! bound slot leads to, with room for those of grants that aren't settled, so that a settling takes no
//! memory.
mod edges;

pub use edges::HeldEdges;
