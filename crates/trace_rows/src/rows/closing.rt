//! Closings.

ghost use Rattle.std.specs.Prelude.{◌≡◌, ◌++◌, List, map, IfOk, OnOk};
ghost use Rattle.std.specs.List.{flat_map};
ghost use Rattle.history_event.specs.declared.event.Event.{Event};
ghost use Rattle.history_event.specs.declared.event.Event.TheVariants.{Close};
ghost use Rattle.history_state.specs.After.{after};
ghost use Rattle.history_state.specs.Allowed.{MayClose};
ghost use Rattle.history_state.specs.Links.{IsUnneeded, bound_edges, chosen_edges, edges_to, held_edges};
ghost use Rattle.history_state.specs.Grants.{is_bound, target_of};
ghost use Rattle.history_state.specs.Objects.{serial_of};
ghost use Rattle.history_state.specs.State.{State};
ghost use Rattle.history_state.specs.Step.{lower};
ghost use Rattle.trace_replay.specs.Heads.{serials_in};
ghost use Rattle.trace_replay.specs.Shown.{IsShown, Shows};
ghost use Rattle.trace_rows.specs.Closing.{choice_edges};
ghost use Rattle.trace_rows.specs.Rows.{IsDecided};

use crate::said::same_closing;
use close_mark::{closing_set, first_is_opened, opened_in};
use history_calls::one_answer;
use history_event::{Chosen, CloseAnswer, Granting, Standing};
use history_graph::Edge;
use history_state::serials_are_in_order;
use ld_base::{Choice, DlFault, HartId, Serial, Serials};
use scope_rule::Namespace;
use std::alloc::{AllocError, Global};
use trace_replay::Replay;

/// Whether a hart's closing of a handle may have this answer.
///
/// # Errors
///
/// Want of memory.
pub(crate) fn may_close(
    alloc: Global,
    replay: &Replay,
    hart: HartId,
    handle: u64,
    answer: &CloseAnswer,
) -> Result<bool, AllocError>
    ensures { IfOk result (λ may. IsDecided replay.now (Close hart handle answer.now) may) }
{
    one_answer();
    let expected = answer_of(alloc, replay, handle)?;
    Ok(same_closing(&expected, answer))
}

/// What a closing of a handle answers.
///
/// # Errors
///
/// Want of memory.
fn answer_of(alloc: Global, replay: &Replay, handle: u64) -> Result<CloseAnswer, AllocError>
    ensures { IfOk result (λ answer. (past : List Event) → Shows past replay.now → MayClose (after past) handle answer) }
{
    first_is_opened();
    match opened_in(replay.namespaces(), handle) {
        Some(namespace) => {
            let set = dying(alloc, replay, namespace, Serial::new(handle))?;
            Ok(CloseAnswer::Done(set))
        }
        None => Ok(CloseAnswer::Refused(DlFault::BadHandle(handle))),
    }
}

/// The objects of a namespace that nothing needs once one opening less of a handle counts.
///
/// # Errors
///
/// Want of memory.
fn dying(
    alloc: Global,
    replay: &Replay,
    namespace: &Namespace,
    handle: Serial,
) -> Result<Serials, AllocError>
    ensures { IfOk result (λ set. (past : List Event) → Shows past replay.now
        → IsUnneeded (lower handle (after past)) (map serial_of namespace.now.objects) set) }
{
    serials_are_in_order();
    let held = held_edges(alloc, replay)?;
    let mut fixed = Vec::from_slice(alloc, replay.startup())?;
    fixed.extend_from_slice(replay.pinned())?;
    closing_set(
        alloc,
        replay.namespaces(),
        namespace,
        handle,
        fixed.as_slice(),
        held.as_slice(),
        replay.grants().open(),
    )
}

/// The edges to what relocations chose at load, and to what bound slots lead to.
///
/// # Errors
///
/// Want of memory.
fn held_edges(alloc: Global, replay: &Replay) -> Result<Vec<Edge>, AllocError>
    ensures { IfOk result (λ edges. (s : State) → IsShown s replay.now → edges.items ≡ held_edges s) }
{
    let mut edges = Vec::new(alloc);
    push_all_chosen(&mut edges, replay.chosen())?;
    push_all_bound(&mut edges, replay)?;
    Ok(edges)
}

/// Puts the edges to what relocations chose at load at the end.
fn push_all_chosen(edges: &mut Vec<Edge>, chosen: &[Chosen]) -> Result<(), AllocError>
    ensures { OnOk result (edges.new.items ≡ edges.old.items ++ flat_map chosen_edges chosen.now) }
{
    for object in chosen {
        push_chosen(edges, object)?;
    }
    Ok(())
}

/// Puts those of one object at the end.
fn push_chosen(edges: &mut Vec<Edge>, object: &Chosen) -> Result<(), AllocError>
    ensures { OnOk result (edges.new.items ≡ edges.old.items ++ chosen_edges object.now) }
{
    push_choices(edges, object.owner, object.choices.as_slice())
}

/// Puts the edges from an object to those of its choices at the end.
fn push_choices(
    edges: &mut Vec<Edge>,
    source: Serial,
    choices: &[Option<Choice>],
) -> Result<(), AllocError>
    ensures { OnOk result (edges.new.items ≡ edges.old.items ++ flat_map (choice_edges source) choices.now) }
{
    for choice in choices {
        push_choice(edges, source, choice)?;
    }
    Ok(())
}

/// Puts the edge to the object of a choice at the end, if something was chosen, and is of one.
fn push_choice(
    edges: &mut Vec<Edge>,
    source: Serial,
    choice: &Option<Choice>,
) -> Result<(), AllocError>
    ensures { OnOk result (edges.new.items ≡ edges.old.items ++ choice_edges source choice.now) }
{
    match choice {
        Some(choice) => push_target(edges, source, *choice),
        None => Ok(()),
    }
}

/// Puts the edge to the object of a choice at the end, if it is of one.
fn push_target(edges: &mut Vec<Edge>, source: Serial, choice: Choice) -> Result<(), AllocError>
    ensures { OnOk result (edges.new.items ≡ edges.old.items ++ edges_to source (target_of choice)) }
{
    match choice {
        Choice::Def(target, _) => Ok(edges.push(Edge { source, target })?),
        Choice::WeakZero | Choice::Missing => Ok(()),
    }
}

/// Puts the edges to what bound slots of mapped objects lead to at the end.
fn push_all_bound(edges: &mut Vec<Edge>, replay: &Replay) -> Result<(), AllocError>
    ensures { OnOk result (edges.new.items ≡ edges.old.items ++ flat_map (bound_edges (serials_in replay.now.namespaces)) replay.now.grants) }
{
    for grant in replay.grants().as_slice() {
        push_bound(edges, replay, grant)?;
    }
    Ok(())
}

/// Puts that of one grant at the end, if its slot is one of those.
fn push_bound(edges: &mut Vec<Edge>, replay: &Replay, grant: &Granting) -> Result<(), AllocError>
    ensures { OnOk result (edges.new.items ≡ edges.old.items ++ bound_edges (serials_in replay.now.namespaces) grant.now) }
{
    if is_bound(grant) && replay.is_mapped(grant.owner) {
        push_target(edges, grant.owner, grant.choice)?;
    }
    Ok(())
}

/// Whether the grant's slot got its value.
fn is_bound(grant: &Granting) -> bool
    ensures { result ≡ is_bound grant.now }
{
    grant.standing == Standing::Bound
}
