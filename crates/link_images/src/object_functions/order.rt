//! The orders of constructors and destructors.

ghost use Rattle.std.specs.Prelude.{◌≡◌, ◌++◌, Some, IfOk, OnOk, map};
ghost use Rattle.std.specs.List.{flat_map};
ghost use Rattle.history_graph.specs.Initialised.{InitOrder, fini_list, program_last};
ghost use Rattle.history_state.specs.Links.{found_edges};
ghost use Rattle.history_state.specs.Objects.{serial_of};

use history_graph::{Edge, Edges, Graph, SerialSet};
use init_order::init_order;
use ld_base::{Loaded, Serial, Serials};
use std::alloc::{AllocError, Global};

/// The serial of a run's program.
const PROGRAM: u64 = 1;

/// The order in which the constructors of new objects run, by what their names found.
///
/// # Errors
///
/// Want of memory.
pub fn constructor_order(alloc: Global, added: &[Loaded]) -> Result<Vec<Serial>, AllocError>
    ensures { IfOk result (λ order. InitOrder (flat_map found_edges added.now) (program_last (Some 1) (map serial_of added.now)) order.items) }
{
    let graph = Graph {
        nodes: Serials::new(alloc),
        edges: edges_of(alloc, added)?,
        roots: Serials::new(alloc),
    };
    let serials = serials_of(alloc, added)?;
    init_order(
        alloc,
        &graph,
        serials.as_slice(),
        Some(Serial::new(PROGRAM)),
    )
}

/// The order in which the destructors of the objects of a set run, of those that are left to be finalised: the
/// latest first.
///
/// # Errors
///
/// Want of memory.
pub fn destructor_order(
    alloc: Global,
    left: &[Serial],
    set: &[Serial],
) -> Result<Vec<Serial>, AllocError>
    ensures { IfOk result (λ order. order.items ≡ fini_list left.now set.now) }
{
    let set = SerialSet::new(set);
    left.iter()
        .rev()
        .copied()
        .filter(|serial| set.has(*serial))
        .collect(alloc)
}

/// Their serials.
fn serials_of(alloc: Global, added: &[Loaded]) -> Result<Serials, AllocError>
    ensures { IfOk result (λ serials. serials ≡ map serial_of added.now) }
{
    let mut serials = Serials::new(alloc);
    for object in added {
        serials.push(object.serial)?;
    }
    Ok(serials)
}

/// An edge from each object to each that was found for one of its names.
fn edges_of(alloc: Global, added: &[Loaded]) -> Result<Edges, AllocError>
    ensures { IfOk result (λ edges. edges ≡ flat_map found_edges added.now) }
{
    let mut edges = Edges::new(alloc);
    for object in added {
        push_edges(&mut edges, object)?;
    }
    Ok(edges)
}

/// Puts the edges of an object at the end.
fn push_edges(edges: &mut Edges, object: &Loaded) -> Result<(), AllocError>
    ensures { OnOk result (edges.new ≡ edges.old ++ found_edges object.now) }
{
    for target in object.found.as_slice() {
        edges.push(Edge {
            source: object.serial,
            target: *target,
        })?;
    }
    Ok(())
}
