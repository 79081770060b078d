//! The edges.

ghost use Rattle.std.specs.Prelude.{◌≡◌, ◌+◌, ◌<◌, [], ◌∷◌, ◌++◌, filter, not, OnOk, OnErr};
ghost use Rattle.history_graph.specs.Initialised.{is_one_of};

use history_graph::{Edge, SerialSet};
use ld_base::Serial;
use std::alloc::{AllocError, Global};
use std::marker::Model;

/// Edges from objects to those that their relocations chose and their slots lead to. Contracts see them
/// with the room for more.
#[derive(Drop)]
pub struct HeldEdges {
    edges: Vec<Edge>,
    room: usize,
}

impl Model for HeldEdges {
    ghost use Rattle.std.specs.Prelude.{◌+◌, ◌≤◌};
    ghost use Rattle.std.specs.Vec.{vec_capacity, vec_len};
    ghost use Rattle.link_lists.specs.HeldEdgesPart.Roomy.{EdgesWithRoom};

    ghost Value = { EdgesWithRoom };

    ghost view = { λ h. record { edges = h.edges.items; room = h.room } };

    ghost invariant = { λ h. vec_len h.edges + h.room ≤ vec_capacity h.edges };
}

impl HeldEdges {
    /// No edges, and no room for any.
    pub fn new(alloc: Global) -> Self
        ensures edges { result.edges ≡ [] }
        ensures room { result.room ≡ 0 }
    {
        HeldEdges {
            edges: Vec::new(alloc),
            room: 0,
        }
    }

    /// The edges as a slice.
    pub fn as_slice(&self) -> &[Edge]
        ensures { result.now ≡ self.now.edges }
    {
        self.edges.as_slice()
    }

    /// Makes room for so many edges more.
    ///
    /// # Errors
    ///
    /// Want of memory. Nothing has changed then.
    pub fn make_room(&mut self, more: usize) -> Result<(), AllocError>
        ensures edges { self.new.edges ≡ self.old.edges }
        ensures room { OnOk result (self.new.room ≡ self.old.room + more) }
        ensures err { OnErr result (self.new.room ≡ self.old.room) }
    {
        let Some(room) = self.room.checked_add(more) else {
            return Err(AllocError);
        };
        self.edges.reserve(room)?;
        self.room = room;
        Ok(())
    }

    /// Gives back the room for an edge that doesn't come.
    pub fn give_back(&mut self)
        requires { 0 < self.old.room }
        ensures edges { self.new.edges ≡ self.old.edges }
        ensures room { self.new.room + 1 ≡ self.old.room }
    {
        self.room -= 1;
    }

    /// One edge more, for which there is room.
    pub fn push(&mut self, source: Serial, target: Serial)
        requires { 0 < self.old.room }
        ensures edges { self.new.edges ≡ self.old.edges ++ record { source = source; target = target } ∷ [] }
        ensures room { self.new.room + 1 ≡ self.old.room }
    {
        self.edges.push_reserved(Edge { source, target });
        self.room -= 1;
    }

    /// Takes the edges from some objects out.
    pub fn remove(&mut self, set: &[Serial])
        ensures edges { self.new.edges ≡ filter (λ e. not (is_one_of set.now e.source)) self.old.edges }
        ensures room { self.new.room ≡ self.old.room }
    {
        let going = SerialSet::new(set);
        self.edges.retain(|edge| !going.has(edge.source));
    }
}
