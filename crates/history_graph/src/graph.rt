//! A graph of objects.

use ld_base::{Sequence, Serial, Serials};

/// One object leads to another.
#[derive(Clone, Copy, PartialEq, Eq)]
pub struct Edge {
    pub source: Serial,
    pub target: Serial,
}

/// Edges, in any order.
pub type Edges = Sequence<Edge>;

/// Objects, in load order, with what leads from one to another.
#[derive(Drop)]
pub struct Graph {
    pub nodes: Serials,
    pub edges: Edges,
    pub roots: Serials,
}
