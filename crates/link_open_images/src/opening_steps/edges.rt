//! What relocations chose.

ghost use Rattle.std.specs.Prelude.{◌≡◌, ◌+◌, ◌≤◌, ◌++◌, Bool, length, map, IfOk, OnOk};
ghost use Rattle.std.specs.List.{flat_map};
ghost use Rattle.history_state.specs.Bound.{chosen_of};
ghost use Rattle.history_state.specs.Links.{chosen_edges};
ghost use Rattle.history_state.specs.State.{State};
ghost use Rattle.link_open_images.specs.Relocated.{AreChoices};
ghost use Rattle.link_open_images.specs.OpeningSteps.Steps.{choice_edges};
ghost use Rattle.scope_rule.specs.Seen.{Seen};

use history_event::Choices;
use history_graph::Edge;
use ld_base::{Choice, Loaded, Serial};
use link_lists::HeldEdges;
use std::alloc::{AllocError, Global};

/// The edges from new objects to what their relocations choose when they are loaded, a list of choices an
/// object.
///
/// # Errors
///
/// Want of memory.
pub fn edges_of(
    alloc: Global,
    objects: &[Loaded],
    choices: &[Choices],
) -> Result<Vec<Edge>, AllocError>
    requires count { length choices.now ≡ length objects.now }
    ensures { (s : State) (ns : Seen) (now : Bool) → AreChoices ns now objects.now choices.now
        → IfOk result (λ edges. edges.items ≡ flat_map chosen_edges (map (chosen_of s ns now) objects.now)) }
{
    let mut edges = Vec::new(alloc);
    for (index, object) in objects.iter().enumerate() {
        push_edges(&mut edges, object.serial, choices[index].as_slice())?;
    }
    Ok(edges)
}

/// Puts the edges from an object to what it chose at the end.
fn push_edges(edges: &mut Vec<Edge>, source: Serial, choices: &[Choice]) -> Result<(), AllocError>
    ensures { OnOk result (edges.new.items ≡ edges.old.items ++ flat_map (choice_edges source) choices.now) }
{
    for choice in choices {
        push_edge(edges, source, choice)?;
    }
    Ok(())
}

/// Puts the edge to what was chosen at the end, if something was.
fn push_edge(edges: &mut Vec<Edge>, source: Serial, choice: &Choice) -> Result<(), AllocError>
    ensures { OnOk result (edges.new.items ≡ edges.old.items ++ choice_edges source choice.now) }
{
    match choice {
        Choice::Def(target, _) => edges.push(Edge {
            source,
            target: *target,
        })?,
        Choice::WeakZero | Choice::Missing => {}
    }
    Ok(())
}

/// Puts edges at the end of those that are held, where there is room for them.
pub fn hold_all(held: &mut HeldEdges, edges: &[Edge])
    requires { length edges.now ≤ held.old.room }
    ensures edges { held.new.edges ≡ held.old.edges ++ edges.now }
    ensures room { held.new.room + length edges.now ≡ held.old.room }
{
    for edge in edges {
        held.push(edge.source, edge.target);
    }
}
