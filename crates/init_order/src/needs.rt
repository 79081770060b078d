//! What the tasks of an initialisation need.

ghost use Rattle.std.specs.Prelude.{◌≡◌, ◌≢◌, ◌+◌, ◌*◌, ◌<◌, ◌^◌, ℕ, [], length, IfNone, IfOk, IfSome, OnOk, Some};
ghost use Rattle.init_order.specs.Components.{number_of};
ghost use Rattle.init_order.specs.Jobs.{Adds, IsLedNeed, IsNeed, IsStartNeed, IsWholeNeed, need};

use crate::components::Components;
use history_graph::{Edge, Graph};
use ld_base::Serial;
use std::alloc::{AllocError, Global};

/// What the tasks need of one another: those of the objects of a line, and of their components.
pub(crate) fn needs_of(
    alloc: Global,
    graph: &Graph,
    components: &Components,
    line: &[Serial],
) -> Result<Vec<Edge>, AllocError>
    requires counted { (q c : ℕ) → number_of components.now q ≡ Some c → c < components.now.count }
    requires fits { 2 * components.now.count + length line.now < 2 ^ 64 }
    ensures { IfOk result (λ needs. Adds [] needs.items (IsNeed graph.now.edges (number_of components.now) components.now.count line.now)) }
{
    let mut needs = Vec::new(alloc);
    push_starts(&mut needs, components, line)?;
    push_components(&mut needs, components.count)?;
    push_edges(&mut needs, components, graph.edges.as_slice())?;
    Ok(needs)
}

/// An object needs that its component is open, and its component isn't whole before the object is
/// started.
fn push_starts(
    needs: &mut Vec<Edge>,
    components: &Components,
    line: &[Serial],
) -> Result<(), AllocError>
    requires counted { (q c : ℕ) → number_of components.now q ≡ Some c → c < components.now.count }
    requires fits { 2 * components.now.count + length line.now < 2 ^ 64 }
    ensures { OnOk result (Adds needs.old.items needs.new.items (IsStartNeed (number_of components.now) components.now.count line.now (length line.now))) }
{
    let count = components.count;
    for (place, serial) in line.iter().enumerate() {
        let Some(component) = components.number(*serial) else {
            continue;
        };
        let start = 2 * count + place;
        needs.push(need(start, 2 * component))?;
        needs.push(need(2 * component + 1, start))?;
    }
    Ok(())
}

/// A component isn't whole before it is open.
fn push_components(needs: &mut Vec<Edge>, count: usize) -> Result<(), AllocError>
    requires { 2 * count < 2 ^ 64 }
    ensures { OnOk result (Adds needs.old.items needs.new.items (IsWholeNeed count)) }
{
    for component in 0..count {
        needs.push(need(2 * component + 1, 2 * component))?;
    }
    Ok(())
}

/// A component isn't open before all that it leads to is whole.
fn push_edges(
    needs: &mut Vec<Edge>,
    components: &Components,
    edges: &[Edge],
) -> Result<(), AllocError>
    requires counted { (q c : ℕ) → number_of components.now q ≡ Some c → c < components.now.count }
    requires fits { 2 * components.now.count < 2 ^ 64 }
    ensures { OnOk result (Adds needs.old.items needs.new.items (IsLedNeed edges.now (number_of components.now))) }
{
    for edge in edges {
        let Some((source, target)) = apart(components, *edge) else {
            continue;
        };
        needs.push(need(2 * source, 2 * target + 1))?;
    }
    Ok(())
}

/// The components of an edge's ends, if they are two.
fn apart(components: &Components, edge: Edge) -> Option<(usize, usize)>
    ensures some { IfSome result (λ p. (number_of components.now edge.source ≡ Some p.0) × (number_of components.now edge.target ≡ Some p.1) × (p.0 ≢ p.1)) }
    ensures none { IfNone result ((a b : ℕ) → number_of components.now edge.source ≡ Some a → number_of components.now edge.target ≡ Some b → a ≡ b) }
{
    let source = components.number(edge.source)?;
    let target = components.number(edge.target)?;
    if source == target {
        None
    } else {
        Some((source, target))
    }
}

/// An edge from a task to one that it needs.
fn need(task: usize, needed: usize) -> Edge
    ensures { result ≡ need task needed }
{
    Edge {
        source: Serial::new(task as u64),
        target: Serial::new(needed as u64),
    }
}
