//! The objects of a closing.

ghost use Rattle.std.specs.Prelude.{◌≡◌, map, IfOk};
ghost use Rattle.close_mark.specs.ClosingLaws.Given.{IsGraphOf};
ghost use Rattle.history_state.specs.Links.{IsUnneeded};
ghost use Rattle.history_state.specs.Objects.{serial_of};
ghost use Rattle.history_state.specs.State.{State};
ghost use Rattle.history_state.specs.Step.{lower};

use crate::closing_graph::{edges_of, roots_of};
use crate::closing_laws::closes_exactly;
use crate::unneeded;
use history_event::Granting;
use history_graph::{Edge, Edges, Graph};
use ld_base::{Loaded, Serial, Serials};
use scope_rule::Namespace;
use std::alloc::{AllocError, Global};

/// The objects of a namespace that nothing needs once one opening less of a handle counts. `fixed` are those
/// that startup loaded and those that stay, and `granted` the grants that aren't settled.
///
/// # Errors
///
/// Want of memory.
pub fn closing_set(
    alloc: Global,
    namespaces: &[Namespace],
    namespace: &Namespace,
    handle: Serial,
    fixed: &[Serial],
    held: &[Edge],
    granted: &[Granting],
) -> Result<Serials, AllocError>
    ensures { IfOk result (λ set. (s : State) → s.namespaces ≡ namespaces.now → IsGraphOf s held.now fixed.now granted.now
        → IsUnneeded (lower handle s) (map serial_of namespace.now.objects) set) }
{
    closes_exactly();
    let edges = edges_of(alloc, namespaces, held)?;
    let roots = roots_of(alloc, namespaces, handle, fixed, granted)?;
    let nodes = serials_of(alloc, namespace.objects.as_slice())?;
    let graph = Graph {
        nodes: Serials::from(nodes),
        edges: Edges::from(edges),
        roots: Serials::from(roots),
    };
    let set = unneeded(alloc, &graph)?;
    Ok(Serials::from(set))
}

/// The serials of objects.
fn serials_of(alloc: Global, objects: &[Loaded]) -> Result<Vec<Serial>, AllocError>
    ensures { IfOk result (λ serials. serials.items ≡ map serial_of objects.now) }
{
    let mut serials = Vec::with_capacity(alloc, objects.len())?;
    for object in objects {
        serials.push(object.serial)?;
    }
    Ok(serials)
}
