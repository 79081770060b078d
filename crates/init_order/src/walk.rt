//! Which objects lead to one another: strongly connected components, by one walk along a path
//! (Gabow, "Path-based depth-first search for strong and biconnected components").

ghost use Rattle.std.specs.Prelude.{◌≡◌, ◌==◌, ◌+◌, ◌-◌, ◌<◌, ◌≤◌, ◌∷◌, ◌++◌, ℕ, []};
ghost use Rattle.std.specs.Prelude.{if◌then◌else◌, drop, filter, length, map, take, nat_eq, IfSome, IfNone, None, OnOk, Some, Contains};
ghost use Rattle.std.specs.HashMap.{get};
ghost use Rattle.init_order.specs.Walked.{Grows, IsWalked, Walked, work, work_of};
ghost use Rattle.init_order.specs.Walking.{DropsBehind, IsCut, at, is_in, step_of};

use history_graph::{Edge, Successors};
use ld_base::Serial;
use std::alloc::{AllocError, Global};
use std::collections::HashMap;

/// Where a serial stands that the walk has come to.
#[derive(Clone, Copy, PartialEq, Eq)]
pub(crate) enum Mark {
    /// At this place of the path.
    OnPath(usize),
    /// In this component.
    Settled(usize),
}

/// An edge from a place of the path that isn't followed yet.
#[derive(Clone, Copy, PartialEq, Eq)]
pub(crate) struct Step {
    pub(crate) place: usize,
    pub(crate) target: Serial,
}

/// A walk along edges. The path is cut into parts, in each of which the serials lead to one another;
/// the last part has nothing behind it but steps that aren't followed yet. Once it has none, it is a
/// component, and gets the next number: so no edge leads to a component of a higher number.
#[derive(Drop)]
pub(crate) struct Walk {
    pub(crate) marks: HashMap<Serial, Mark>,
    pub(crate) path: Vec<Serial>,
    /// The first place of each part.
    pub(crate) starts: Vec<usize>,
    pub(crate) pending: Vec<Step>,
    /// What the walk has come to, in order.
    pub(crate) visited: Vec<Serial>,
    /// The first serial of each component that was come to.
    pub(crate) components: Vec<Serial>,
}

impl Walk {
    /// A walk that hasn't begun.
    pub(crate) fn new(alloc: Global) -> Self
        ensures marks { (q : ℕ) → at result q ≡ None }
        ensures path { result.path.items ≡ [] }
        ensures starts { result.starts.items ≡ [] }
        ensures pending { result.pending.items ≡ [] }
        ensures visited { result.visited.items ≡ [] }
        ensures components { result.components.items ≡ [] }
    {
        Walk {
            marks: HashMap::new(alloc),
            path: Vec::new(alloc),
            starts: Vec::new(alloc),
            pending: Vec::new(alloc),
            visited: Vec::new(alloc),
            components: Vec::new(alloc),
        }
    }

    /// Puts a serial at the end of the path, as a part of its own, with its edges as steps.
    fn visit(&mut self, successors: &Successors, serial: Serial) -> Result<(), AllocError>
        ensures marks { OnOk result ((q : ℕ) → at self.new q ≡ (if nat_eq serial q then Some (Mark.OnPath (length self.old.path.items)) else at self.old q)) }
        ensures path { OnOk result (self.new.path.items ≡ self.old.path.items ++ serial ∷ []) }
        ensures starts { OnOk result (self.new.starts.items ≡ self.old.starts.items ++ length self.old.path.items ∷ []) }
        ensures pending { OnOk result (self.new.pending.items ≡
            self.old.pending.items ++ map (step_of (length self.old.path.items)) (filter (λ e. e.source == serial) successors.now)) }
        ensures visited { OnOk result (self.new.visited.items ≡ self.old.visited.items ++ serial ∷ []) }
        ensures components { self.new.components.items ≡ self.old.components.items }
    {
        let place = self.path.len();
        self.marks.insert(serial, Mark::OnPath(place))?;
        self.path.push(serial)?;
        self.starts.push(place)?;
        self.visited.push(serial)?;
        push_steps(&mut self.pending, place, successors.of(serial))
    }

    /// Goes on from a root to all that it leads to and that wasn't come to before.
    pub(crate) fn explore(
        &mut self,
        successors: &Successors,
        root: Serial,
    ) -> Result<(), AllocError>
        requires walked { IsWalked successors.now self.old }
        requires free { self.old.path.items ≡ [] }
        ensures walked { OnOk result (IsWalked successors.now self.new) }
        ensures free { OnOk result (self.new.path.items ≡ []) }
        ensures grows { OnOk result (Grows self.old.visited.items self.new.visited.items) }
        ensures root { OnOk result (Contains self.new.visited.items root) }
    {
        if self.marks.contains_key(&root) {
            return Ok(());
        }
        self.visit(successors, root)?;
        self.walk_on(successors)
    }

    /// Walks until the path is empty.
    fn walk_on(&mut self, successors: &Successors) -> Result<(), AllocError>
        requires { IsWalked successors.now self.old }
        ensures walked { OnOk result (IsWalked successors.now self.new) }
        ensures free { OnOk result (self.new.path.items ≡ []) }
        ensures grows { OnOk result (Grows self.old.visited.items self.new.visited.items) }
    {
        while !self.starts.is_empty() {
            self.advance(successors)?;
        }
        Ok(())
    }

    /// Follows the next step of the last part, or makes the part a component.
    fn advance(&mut self, successors: &Successors) -> Result<(), AllocError>
        requires walked { IsWalked successors.now self.old }
        requires some { 0 < length self.old.starts.items }
        ensures walked { OnOk result (IsWalked successors.now self.new) }
        ensures less { OnOk result (work_of successors.now self.new < work_of successors.now self.old) }
        ensures grows { OnOk result (Grows self.old.visited.items self.new.visited.items) }
    {
        let start = self.starts[self.starts.len() - 1];
        match next_step(&mut self.pending, start) {
            Some(step) => self.follow(successors, step),
            None => self.settle(start),
        }
    }

    /// Follows a step of the last part, which isn't pending any more.
    fn follow(&mut self, successors: &Successors, step: Step) -> Result<(), AllocError>
        requires walked { Walked successors.now (at self.old) self.old.path.items self.old.starts.items (self.old.pending.items ++ step ∷ [])
            self.old.visited.items (length self.old.components.items) }
        requires last { (start : ℕ) → Contains self.old.starts.items start → start ≤ step.place }
        ensures walked { OnOk result (IsWalked successors.now self.new) }
        ensures less { OnOk result (work_of successors.now self.new
            < work successors.now (at self.old) self.old.starts.items (self.old.pending.items ++ step ∷ [])) }
        ensures grows { OnOk result (Grows self.old.visited.items self.new.visited.items) }
    {
        match self.marks.get(&step.target).copied() {
            None => self.visit(successors, step.target),
            Some(Mark::OnPath(place)) => {
                join_parts(&mut self.starts, place);
                Ok(())
            }
            Some(Mark::Settled(_)) => Ok(()),
        }
    }

    /// Makes the last part, which begins at `start`, a component.
    fn settle(&mut self, start: usize) -> Result<(), AllocError>
        requires { start < length self.old.path.items }
        ensures marks { OnOk result ((q : ℕ) → at self.new q ≡
            (if is_in (drop start self.old.path.items) q then Some (Mark.Settled (length self.old.components.items)) else at self.old q)) }
        ensures path { OnOk result (self.new.path.items ≡ take start self.old.path.items) }
        ensures starts { OnOk result (self.new.starts.items ≡ take (length self.old.starts.items - 1) self.old.starts.items) }
        ensures components { OnOk result (length self.new.components.items ≡ length self.old.components.items + 1) }
        ensures pending { self.new.pending ≡ self.old.pending }
        ensures visited { self.new.visited ≡ self.old.visited }
    {
        let number = self.components.len();
        let first = self.path[start];
        mark_settled(&mut self.marks, &self.path[start..], number)?;
        self.components.push(first)?;
        self.path.truncate(start);
        self.starts.pop();
        Ok(())
    }
}

/// The next step from a place not before `start`, if the last one is such.
fn next_step(pending: &mut Vec<Step>, start: usize) -> Option<Step>
    ensures some { IfSome result (λ step. pending.old.items ≡ pending.new.items ++ step ∷ []) }
    ensures from { IfSome result (λ step. start ≤ step.place) }
    ensures none { IfNone result (IsCut pending.old.items start) }
    ensures kept { IfNone result (pending.new.items ≡ pending.old.items) }
{
    if pending.is_empty() {
        return None;
    }
    let step = pending[pending.len() - 1];
    if step.place < start {
        return None;
    }
    pending.pop()
}

/// Joins the parts that begin behind a place to the part of that place.
fn join_parts(starts: &mut Vec<usize>, place: usize)
    ensures { DropsBehind starts.old.items starts.new.items place }
{
    while let Some(start) = starts.pop() {
        if start <= place {
            let _ = starts.push(start);
            return;
        }
    }
}

/// Puts the targets of edges at the end, as steps from a place.
fn push_steps(pending: &mut Vec<Step>, place: usize, edges: &[Edge]) -> Result<(), AllocError>
    ensures { OnOk result (pending.new.items ≡ pending.old.items ++ map (step_of place) edges.now) }
{
    for edge in edges {
        let target = edge.target;
        pending.push(Step { place, target })?;
    }
    Ok(())
}

/// Marks serials as of a component.
fn mark_settled(
    marks: &mut HashMap<Serial, Mark>,
    serials: &[Serial],
    component: usize,
) -> Result<(), AllocError>
    ensures { OnOk result ((q : ℕ) →
        get nat_eq marks.new q ≡ (if is_in serials.now q then Some (Mark.Settled component) else get nat_eq marks.old q)) }
{
    for serial in serials {
        marks.insert(*serial, Mark::Settled(component))?;
    }
    Ok(())
}
