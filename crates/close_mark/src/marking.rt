//! Marking what is reached.

ghost use Rattle.std.specs.Prelude.{◌≡◌, ◌++◌, ◌↔◌, ℕ, IfOk, IsTrue, OnOk, filter, map, nat_eq, not};
ghost use Rattle.std.specs.HashSet.{contains};
ghost use Rattle.history_graph.specs.Reached.{Reached, Unneeded};
ghost use Rattle.close_mark.specs.Marks.{target_of};

use history_graph::{Edge, Graph, Successors};
use ld_base::Serial;
use std::alloc::{AllocError, Global};
use std::collections::HashSet;

/// The nodes that no chain of edges leads to from a root, in the order of the nodes.
///
/// # Errors
///
/// Want of memory.
pub fn unneeded(alloc: Global, graph: &Graph) -> Result<Vec<Serial>, AllocError>
    ensures { IfOk result (λ set. Unneeded graph.now.edges graph.now.roots graph.now.nodes set.items) }
{
    let reached = reached(alloc, graph.edges.as_slice(), graph.roots.as_slice())?;
    others(alloc, graph.nodes.as_slice(), &reached)
}

/// The serials that aren't in the set.
fn others(
    alloc: Global,
    serials: &[Serial],
    set: &HashSet<Serial>,
) -> Result<Vec<Serial>, AllocError>
    ensures { IfOk result (λ rest. rest.items ≡ filter (λ d. not (contains nat_eq set.now d)) serials.now) }
{
    let serials = serials.iter().copied();
    serials
        .filter(|serial| !set.contains(serial))
        .collect(alloc)
}

/// The serials that chains of edges lead to from the roots, and the roots.
fn reached(alloc: Global, edges: &[Edge], roots: &[Serial]) -> Result<HashSet<Serial>, AllocError>
    ensures { IfOk result (λ set.
        (d : ℕ) → IsTrue (contains nat_eq set d) ↔ Reached edges.now roots.now d) }
{
    let successors = Successors::new(alloc, edges)?;
    let mut reached = HashSet::new(alloc);
    let mut pending = Vec::from_slice(alloc, roots)?;
    while let Some(serial) = pending.pop() {
        if reached.insert(serial)? {
            push_targets(&mut pending, successors.of(serial))?;
        }
    }
    Ok(reached)
}

/// Puts the targets of the edges at the end.
fn push_targets(pending: &mut Vec<Serial>, edges: &[Edge]) -> Result<(), AllocError>
    ensures { OnOk result (pending.new.items ≡ pending.old.items ++ map target_of edges.now) }
{
    for edge in edges {
        pending.push(edge.target)?;
    }
    Ok(())
}
