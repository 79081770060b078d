//! A journal as a graph: who needs whom, and which slot was bound to whom.

ghost use Rattle.std.specs.Prelude.{◌≡◌, ◌++◌, Some, IfOk, OnOk, flat_map};
ghost use Rattle.std.specs.Option.{option_copied};
ghost use Rattle.std.specs.String.{string_bytes};
ghost use Rattle.trace_view.specs.Graph.{bound_edge, dot_byte, edge_ends, edge_text, graph_start, graph_text, is_called, is_file_name, names_itself};
ghost use Rattle.trace_view.specs.Graph.{need_edge, needs_of, node_end, node_start, node_text, provider_of, slot_label};

use crate::journal::{Made, Step};
use crate::members::Member;
use crate::names::SlotName;
use history_event::EventLine;
use ld_base::{Choice, Name, NsId, Serial};
use std::alloc::{AllocError, Global};
use std::fmt;

/// A byte of a quoted string of DOT.
#[derive(Clone, Copy)]
struct DotByte(u8);

impl fmt::Display for DotByte {
    ghost output = { λ b. Some (dot_byte b.0) };

    fn fmt<W: fmt::Write>(&self, f: &mut fmt::Formatter<W>) -> fmt::Result {
        let byte = self.0;
        match byte {
            b'"' => write!(f, "\\\""),
            b'\\' => write!(f, "\\\\"),
            0x20..=0x7e => {
                let plain = byte as char;
                write!(f, "{plain}")
            }
            _ => write!(f, "?"),
        }
    }
}

fn write_dot(text: &mut String, bytes: &[u8]) -> Result<(), AllocError>
    ensures { OnOk result (string_bytes text.new ≡ string_bytes text.old ++ flat_map dot_byte bytes.now) }
{
    for byte in bytes {
        let byte = DotByte(*byte);
        write!(text, "{byte}")?;
    }
    Ok(())
}

#[tactic(auto, unfolding(crate::specs::Graph::node_start))]
fn write_node_start(text: &mut String, serial: Serial) -> Result<(), AllocError>
    ensures { OnOk result (string_bytes text.new ≡ string_bytes text.old ++ node_start serial) }
{
    let serial = serial.number();
    write!(text, "  o{serial} [label=\"{serial} ")
}

#[tactic(auto, unfolding(crate::specs::Graph::node_end))]
fn write_node_end(text: &mut String, ns: NsId, base: u64) -> Result<(), AllocError>
    ensures { OnOk result (string_bytes text.new ≡ string_bytes text.old ++ node_end ns base) }
{
    let ns = ns.number();
    writeln!(text, "\\nnamespace {ns}, 0x{base:x}\"];")
}

/// Writes the node of an object.
fn write_node(text: &mut String, alloc: Global, member: &Member) -> Result<(), AllocError>
    ensures { OnOk result (string_bytes text.new ≡ string_bytes text.old ++ node_text member.now) }
{
    let path = &member.path;
    let name = format!(in alloc; "{path}")?;
    write_node_start(text, member.serial)?;
    write_dot(text, name.as_bytes())?;
    write_node_end(text, member.ns, member.base)
}

/// Whether a path's last part is this name.
#[tactic(auto, unfolding(crate::specs::Graph::is_file_name))]
fn is_file_name(path: &Name, name: &Name) -> bool
    ensures { result ≡ is_file_name path.now name.now }
{
    match path.as_bytes().strip_suffix(name.as_bytes()) {
        Some(front) => front.last().is_none_or(|byte| *byte == b'/'),
        None => false,
    }
}

/// Whether an object's file gives it this name.
fn names_itself(member: &Member, name: &Name) -> bool
    ensures { result ≡ names_itself member.now.object name.now }
{
    match &member.object {
        Some(object) => match &object.soname {
            Some(soname) => soname.is(name.as_bytes()),
            None => false,
        },
        None => false,
    }
}

/// Whether an object is called so: by its own name, or by its file's.
#[tactic(auto, unfolding(crate::specs::Graph::is_called))]
fn is_called(member: &Member, name: &Name) -> bool
    ensures { result ≡ is_called member.now name.now }
{
    names_itself(member, name) || is_file_name(&member.path, name)
}

/// The first object of a namespace that is called so.
fn provider_of<'a>(members: &'a [Member], ns: NsId, name: &Name) -> Option<&'a Member>
    ensures { option_copied result ≡ provider_of members.now ns name.now }
{
    members
        .iter()
        .find(|member| member.ns == ns && is_called(member, name))
}

/// Writes the two ends of an edge.
#[tactic(auto, unfolding(crate::specs::Graph::edge_ends))]
fn write_ends(text: &mut String, from: Serial, to: Serial) -> Result<(), AllocError>
    ensures { OnOk result (string_bytes text.new ≡ string_bytes text.old ++ edge_ends from to) }
{
    let (from, to) = (from.number(), to.number());
    write!(text, "  o{from} -> o{to}")
}

/// Writes an edge from an object to what one of its needed names is.
fn write_need(
    text: &mut String,
    members: &[Member],
    member: &Member,
    name: &Name,
) -> Result<(), AllocError>
    ensures { OnOk result (string_bytes text.new ≡ string_bytes text.old ++ need_edge members.now member.now name.now) }
{
    match provider_of(members, member.ns, name) {
        Some(provider) => {
            write_ends(text, member.serial, provider.serial)?;
            writeln!(text, " [style=dashed, color=gray];")
        }
        None => Ok(()),
    }
}

/// Writes an edge for each name that an object needs.
fn write_needed(
    text: &mut String,
    members: &[Member],
    member: &Member,
    names: &[Name],
) -> Result<(), AllocError>
    ensures { OnOk result (string_bytes text.new ≡ string_bytes text.old ++ flat_map (need_edge members.now member.now) names.now) }
{
    for name in names {
        write_need(text, members, member, name)?;
    }
    Ok(())
}

fn write_needs(text: &mut String, members: &[Member], member: &Member) -> Result<(), AllocError>
    ensures { OnOk result (string_bytes text.new ≡ string_bytes text.old ++ needs_of members.now member.now) }
{
    match &member.object {
        Some(object) => write_needed(text, members, member, object.needed.as_slice()),
        None => Ok(()),
    }
}

/// Writes the nodes of objects, each with its edges to what it needs.
fn write_nodes(
    text: &mut String,
    alloc: Global,
    members: &[Member],
    shown: &[Member],
) -> Result<(), AllocError>
    ensures { OnOk result (string_bytes text.new ≡ string_bytes text.old ++ flat_map (λ m. node_text m ++ needs_of members.now m) shown.now) }
{
    for member in shown {
        write_node(text, alloc, member)?;
        write_needs(text, members, member)?;
    }
    Ok(())
}

/// Writes the name of a slot beside an edge.
fn write_slot(
    text: &mut String,
    alloc: Global,
    members: &[Member],
    owner: Serial,
    slot: u32,
) -> Result<(), AllocError>
    ensures { OnOk result (string_bytes text.new ≡ string_bytes text.old ++ slot_label members.now owner slot) }
{
    let slot = SlotName {
        members,
        owner,
        slot,
    };
    let name = format!(in alloc; "{slot}")?;
    write!(text, " [label=\"")?;
    write_dot(text, name.as_bytes())?;
    writeln!(text, "\"];")
}

/// Writes an edge from a slot's object to that of its definition.
fn write_bound(
    text: &mut String,
    alloc: Global,
    members: &[Member],
    made: &Made,
) -> Result<(), AllocError>
    ensures { OnOk result (string_bytes text.new ≡ string_bytes text.old ++ bound_edge members.now made.now) }
{
    match &made.choice {
        Choice::Def(object, _) => {
            write_ends(text, made.owner, *object)?;
            write_slot(text, alloc, members, made.owner, made.slot)
        }
        Choice::WeakZero | Choice::Missing => Ok(()),
    }
}

/// Writes an edge where a step is a slot that was bound.
#[tactic(auto, unfolding(crate::specs::Graph::edge_text))]
fn write_edge(
    text: &mut String,
    alloc: Global,
    members: &[Member],
    step: &Step,
) -> Result<(), AllocError>
    ensures { OnOk result (string_bytes text.new ≡ string_bytes text.old ++ edge_text members.now step.now) }
{
    match (&step.event, &step.grant) {
        (EventLine::Bound { .. }, Some(made)) => write_bound(text, alloc, members, made),
        _ => Ok(()),
    }
}

fn write_edges(
    text: &mut String,
    alloc: Global,
    members: &[Member],
    steps: &[Step],
) -> Result<(), AllocError>
    ensures { OnOk result (string_bytes text.new ≡ string_bytes text.old ++ flat_map (edge_text members.now) steps.now) }
{
    for step in steps {
        write_edge(text, alloc, members, step)?;
    }
    Ok(())
}

#[tactic(auto, unfolding(crate::specs::Graph::graph_start))]
fn write_start(text: &mut String) -> Result<(), AllocError>
    ensures { OnOk result (string_bytes text.new ≡ string_bytes text.old ++ graph_start) }
{
    write!(
        text,
        "digraph run {{\n  rankdir=LR;\n  node [shape=box];\n  o0 [label=\"ldso\"];\n"
    )
}

/// A journal as a graph in DOT: objects; a dashed edge to each that one needs; an edge for each slot that
/// was bound, with its name.
///
/// # Errors
///
/// Want of memory.
pub(crate) fn graph_text(
    alloc: Global,
    members: &[Member],
    steps: &[Step],
) -> Result<String, AllocError>
    ensures { IfOk result (λ text. string_bytes text ≡ graph_text members.now steps.now) }
{
    let mut text = String::new(alloc);
    write_start(&mut text)?;
    write_nodes(&mut text, alloc, members, members)?;
    write_edges(&mut text, alloc, members, steps)?;
    writeln!(text, "}}")?;
    Ok(text)
}
