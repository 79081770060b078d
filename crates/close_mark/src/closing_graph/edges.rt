//! The edges.

ghost use Rattle.std.specs.Prelude.{◌≡◌, ◌++◌, IfOk, OnOk};
ghost use Rattle.std.specs.List.{flat_map};
ghost use Rattle.history_state.specs.Links.{found_edges};
ghost use Rattle.close_mark.specs.ClosingGraph.Graphs.{all_edges};

use history_graph::Edge;
use ld_base::Loaded;
use scope_rule::Namespace;
use std::alloc::{AllocError, Global};

/// The edges that are held, and those to what the names of objects found.
///
/// # Errors
///
/// Want of memory.
pub fn edges_of(
    alloc: Global,
    namespaces: &[Namespace],
    held: &[Edge],
) -> Result<Vec<Edge>, AllocError>
    ensures { IfOk result (λ all. all.items ≡ all_edges namespaces.now held.now) }
{
    let mut edges = Vec::from_slice(alloc, held)?;
    for namespace in namespaces {
        push_all_found(&mut edges, namespace.objects.as_slice())?;
    }
    Ok(edges)
}

/// Puts the edges to what the names of objects found at the end.
fn push_all_found(edges: &mut Vec<Edge>, objects: &[Loaded]) -> Result<(), AllocError>
    ensures { OnOk result (edges.new.items ≡ edges.old.items ++ flat_map found_edges objects.now) }
{
    for object in objects {
        push_found(edges, object)?;
    }
    Ok(())
}

/// Puts the edges to what the names of an object found at the end.
fn push_found(edges: &mut Vec<Edge>, object: &Loaded) -> Result<(), AllocError>
    ensures { OnOk result (edges.new.items ≡ edges.old.items ++ found_edges object.now) }
{
    let source = object.serial;
    for target in object.found.as_slice() {
        let target = *target;
        edges.push(Edge { source, target })?;
    }
    Ok(())
}
