//! The edges of each serial.

ghost use Rattle.std.specs.Prelude.{◌≡◌, IfOk, filter};
ghost use Rattle.std.specs.List.Sorted.{IsPermutation};
ghost use Rattle.history_graph.specs.Reached.{leads_from};

use crate::Edge;
use ld_base::Serial;
use std::alloc::{AllocError, Global};
use std::marker::Model;

/// Edges, ordered by their source, so that those of one are found by a search. Contracts see it as
/// their list.
#[derive(Drop)]
pub struct Successors {
    edges: Vec<Edge>,
}

impl Model for Successors {
    ghost use Rattle.std.specs.Prelude.{List};
    ghost use Rattle.history_graph.specs.declared.graph.Edge.{Edge};
    ghost use Rattle.history_graph.specs.Sources.{IsBySource};

    ghost Value = { List Edge };

    ghost view = { λ s. s.edges.items };

    ghost invariant = { λ s. IsBySource s.edges.items };
}

impl Successors {
    /// The successors that these edges give.
    ///
    /// # Errors
    ///
    /// Want of memory.
    pub fn new(alloc: Global, edges: &[Edge]) -> Result<Self, AllocError>
        ensures { IfOk result (IsPermutation edges.now) }
    {
        let mut edges = Vec::from_slice(alloc, edges)?;
        edges.sort_by_key(|edge| edge.source.number())?;
        Ok(Successors { edges })
    }

    /// The edges from a serial.
    pub fn of(&self, source: Serial) -> &[Edge]
        ensures { result.now ≡ filter (leads_from source) self.now }
    {
        let number = source.number();
        let edges = self.edges.as_slice();
        let start = edges.partition_point(|edge| edge.source.number() < number);
        let (_, rest) = edges.split_at(start);
        let end = rest.partition_point(|edge| edge.source.number() <= number);
        let (found, _) = rest.split_at(end);
        found
    }
}
