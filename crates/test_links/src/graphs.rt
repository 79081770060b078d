//! Objects and what leads from one to another.
//!
//! An edge is written as `1>2`. What may fail is made one at a time, and handed on: a list that is
//! kept over many calls that may fail is dear to prove.

use crate::lists::{push_serials, serial, serials, written};
use close_mark::unneeded;
use history_graph::{Edge, Edges, Graph};
use init_order::{components_of, fini_order, init_order};
use ld_base::{Serial, Serials};
use std::alloc::Global;
use test_file::{Fault, Words, show_some};

/// The nodes that no chain of edges leads to from a root: of nodes, edges and roots.
pub fn unneeded_of(alloc: Global, words: &mut Words) -> Result<String, Fault> {
    let (nodes, edges, roots) = (words.text()?, words.text()?, words.text()?);
    let graph = graph(alloc, nodes, edges, roots)?;
    let unneeded = unneeded(alloc, &graph)?;
    written(alloc, unneeded.as_slice())
}

/// The order in which new objects are initialised: of edges, the new objects in load order, and the
/// program, or `-` where it isn't one of them.
pub fn initialised(alloc: Global, words: &mut Words) -> Result<String, Fault> {
    let (edges, new, program) = (words.text()?, words.text()?, words.text()?);
    let program = match program {
        "-" => None,
        word => Some(serial(word)?),
    };
    let graph = graph(alloc, new, edges, "-")?;
    let order = init_order(alloc, &graph, graph.nodes.as_slice(), program)?;
    written(alloc, order.as_slice())
}

/// The objects of a set in the order of their destructors: of those that were initialised, and the set.
pub fn finalised(alloc: Global, words: &mut Words) -> Result<String, Fault> {
    let (inits, set) = (words.text()?, words.text()?);
    let inits = serials(alloc, inits)?;
    let set = serials(alloc, set)?;
    let order = fini_order(alloc, inits.as_slice(), set.as_slice())?;
    written(alloc, order.as_slice())
}

/// The number of an object's component: of edges, the objects to begin with, and the object.
pub fn component(alloc: Global, words: &mut Words) -> Result<String, Fault> {
    let (edges, roots) = (words.text()?, words.text()?);
    let serial = serial(words.text()?)?;
    let graph = graph(alloc, "-", edges, roots)?;
    let number = number_in(alloc, &graph, serial)?;
    show_some(alloc, number)
}

/// The number of an object's component, of those that the roots lead to.
fn number_in(alloc: Global, graph: &Graph, serial: Serial) -> Result<Option<usize>, Fault> {
    let components = components_of(alloc, graph, graph.roots.as_slice())?;
    Ok(components.number(serial))
}

fn graph(alloc: Global, nodes: &str, edges: &str, roots: &str) -> Result<Graph, Fault> {
    let mut graph = Graph {
        nodes: Serials::new(alloc),
        edges: Edges::new(alloc),
        roots: Serials::new(alloc),
    };
    match read_graph(&mut graph, nodes, edges, roots) {
        Ok(()) => Ok(graph),
        Err(fault) => Err(fault),
    }
}

fn read_graph(graph: &mut Graph, nodes: &str, edges: &str, roots: &str) -> Result<(), Fault> {
    push_serials(&mut graph.nodes, nodes)?;
    push_edges(&mut graph.edges, edges)?;
    push_serials(&mut graph.roots, roots)
}

fn push_edges(edges: &mut Edges, list: &str) -> Result<(), Fault> {
    if list == "-" {
        return Ok(());
    }
    for word in list.split(',') {
        edges.push(edge(word)?)?;
    }
    Ok(())
}

fn edge(word: &str) -> Result<Edge, Fault> {
    let (source, target) = word.split_once('>').ok_or(Fault::Unclear)?;
    Ok(Edge {
        source: serial(source)?,
        target: serial(target)?,
    })
}
