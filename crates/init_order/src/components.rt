//! Objects that lead to one another.

ghost use Rattle.std.specs.Prelude.{◌≡◌, ◌<◌, ◌^◌, ℕ, IfOk, [], Contains};
ghost use Rattle.init_order.specs.Components.{AreComponents, number_of};
ghost use Rattle.init_order.specs.Walked.{IsWalked};

use crate::walk::{Mark, Walk};
use history_graph::{Graph, Successors};
use ld_base::Serial;
use std::alloc::{AllocError, Global};
use std::collections::HashMap;

/// The components of a graph, in each of which all objects lead to one another. They are numbered so
/// that no edge leads to a component of a higher number.
#[derive(Drop)]
pub struct Components {
    marks: HashMap<Serial, Mark>,
    /// How many there are.
    pub(crate) count: usize,
}

impl Components {
    ghost use Rattle.std.specs.Prelude.{◌≡◌};
    ghost use Rattle.init_order.specs.Components.{number_of};

    /// The number of an object's component.
    pub fn number(&self, serial: Serial) -> Option<usize>
        ensures { result ≡ number_of self.now serial }
    {
        match self.marks.get(&serial).copied() {
            Some(Mark::Settled(number)) => Some(number),
            Some(Mark::OnPath(_)) | None => None,
        }
    }
}

/// The components of all that these objects lead to. Each edge is followed once.
///
/// # Errors
///
/// Want of memory.
pub fn components_of(
    alloc: Global,
    graph: &Graph,
    roots: &[Serial],
) -> Result<Components, AllocError>
    ensures components { IfOk result (AreComponents graph.now.edges roots.now) }
    ensures few { IfOk result (λ components. components.count < 2 ^ 62) }
{
    let successors = Successors::new(alloc, graph.edges.as_slice())?;
    let Walk {
        marks,
        components,
        ..
    } = walk_from(alloc, &successors, roots)?;
    let count = components.len();
    Ok(Components { marks, count })
}

/// A walk to all that the roots lead to.
fn walk_from(alloc: Global, successors: &Successors, roots: &[Serial]) -> Result<Walk, AllocError>
    ensures walked { IfOk result (IsWalked successors.now) }
    ensures free { IfOk result (λ walk. walk.path.items ≡ []) }
    ensures roots { IfOk result (λ walk. (q : ℕ) → Contains roots.now q → Contains walk.visited.items q) }
{
    let mut walk = Walk::new(alloc);
    for root in roots {
        walk.explore(successors, *root)?;
    }
    Ok(walk)
}
