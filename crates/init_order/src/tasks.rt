//! Tasks that need one another: of those that may be done the one of the least number is next.

ghost use Rattle.std.specs.Prelude.{◌≡◌, ◌==◌, ◌<◌, ℕ, false, true, if◌then◌else◌, filter, length, nat_lt};
ghost use Rattle.std.specs.Prelude.{slice_index_or, IfNone, IfOk, IfSome, IsTrue, OnOk, Contains, map};
ghost use Rattle.std.specs.BTreeSet as tree;
ghost use Rattle.std.specs.BTreeSet.{btree_set_len};
ghost use Rattle.std.specs.List.Sorted.{IsPermutation};
ghost use Rattle.std.specs.Ordering.{nat_cmp};
ghost use Rattle.history_graph.specs.declared.graph.Edge.{Edge as edge};
ghost use Rattle.history_graph.specs.Reached.{leads_from};
ghost use Rattle.init_order.specs.Least.{AreMet, ArePending, Blocked, IsNextTask, flip_of, is_left, is_ready, met_of};

use history_graph::{Edge, Successors};
use ld_base::Serial;
use std::alloc::{AllocError, Global};
use std::collections::{BTreeSet, HashMap};

/// Tasks, by their numbers, of which some are done. In an edge from a task to one that it needs a
/// number stands as a serial.
#[derive(Drop)]
pub(crate) struct Tasks {
    /// From a task to those that it needs.
    needs: Successors,
    /// From a task to those that need it.
    users: Successors,
    /// Those that are to be looked at.
    ready: BTreeSet<u64>,
    /// Those that aren't done.
    left: BTreeSet<u64>,
    /// How many of a task's needs, from the first on, are known to be done, so that none is looked at
    /// twice once it is.
    met: HashMap<u64, usize>,
}

impl Tasks {
    /// Tasks of the numbers below a limit, none of which is done; each edge leads from one to one that
    /// it needs.
    pub(crate) fn new(alloc: Global, limit: u64, needs: &[Edge]) -> Result<Self, AllocError>
        ensures pending { IfOk result ArePending }
        ensures fresh { IfOk result (λ tasks. (q : ℕ) → is_left tasks q ≡ nat_lt q limit) }
        ensures needs { IfOk result (λ tasks. IsPermutation needs.now tasks.needs) }
    {
        let turned = turned(alloc, needs)?;
        let needs = Successors::new(alloc, needs)?;
        let users = Successors::new(alloc, turned.as_slice())?;
        let ready = all_below(alloc, limit)?;
        let left = all_below(alloc, limit)?;
        let met = HashMap::new(alloc);
        Ok(Tasks {
            needs,
            users,
            ready,
            left,
            met,
        })
    }

    /// Does the next task, if there is one.
    pub(crate) fn next(&mut self) -> Result<Option<u64>, AllocError>
        requires { ArePending self.old }
        ensures pending { OnOk result (ArePending self.new) }
        ensures next { IfOk result (λ next. IfSome next (IsNextTask self.old.needs (is_left self.old))) }
        ensures left { IfOk result (λ next. IfSome next (λ task. (q : ℕ) → is_left self.new q ≡ (if task == q then false else is_left self.old q))) }
        ensures fewer { IfOk result (λ next. IfSome next (λ _. btree_set_len self.new.left < btree_set_len self.old.left)) }
        ensures end { IfOk result (λ next. IfNone next ((t : ℕ) → is_left self.old t ≡ true → Blocked self.old.needs (is_left self.old) t)) }
        ensures needs { self.new.needs ≡ self.old.needs }
    {
        while let Some(task) = self.ready.pop_first() {
            if self.may_be_done(task)? {
                self.finish(task)?;
                return Ok(Some(task));
            }
        }
        Ok(None)
    }

    /// Whether a task isn't done, and all that it needs is.
    fn may_be_done(&mut self, task: u64) -> Result<bool, AllocError>
        requires { AreMet (is_left self.old) (filter (leads_from task) self.old.needs) (met_of self.old task) }
        ensures fresh { IfOk result (λ may. IsTrue may → is_left self.old task ≡ true) }
        ensures met { IfOk result (λ may. IsTrue may → (e : edge) → Contains self.old.needs e → e.source ≡ task → is_left self.old e.target ≡ false) }
        ensures blocked { IfOk result (λ may. may ≡ false → is_left self.old task ≡ true → Blocked self.old.needs (is_left self.old) task) }
        ensures past { OnOk result (AreMet (is_left self.old) (filter (leads_from task) self.old.needs) (met_of self.new task)) }
        ensures others { OnOk result ((q : ℕ) → (task == q) ≡ false → met_of self.new q ≡ met_of self.old q) }
        ensures ready { self.new.ready ≡ self.old.ready }
        ensures left { self.new.left ≡ self.old.left }
        ensures needs { self.new.needs ≡ self.old.needs }
        ensures users { self.new.users ≡ self.old.users }
    {
        if !self.left.contains(&task) {
            return Ok(false);
        }
        let met = self.met.get(&task).copied().unwrap_or(0);
        let edges = self.needs.of(Serial::new(task));
        let end = first_left(&self.left, edges, met);
        let all = end >= edges.len();
        self.met.insert(task, end)?;
        Ok(all)
    }

    /// Marks a task as done, and has those looked at again that need it.
    fn finish(&mut self, task: u64) -> Result<(), AllocError>
        requires { is_left self.old task ≡ true }
        ensures left { OnOk result ((q : ℕ) → is_left self.new q ≡ (if task == q then false else is_left self.old q)) }
        ensures fewer { btree_set_len self.new.left < btree_set_len self.old.left }
        ensures stay { OnOk result ((q : ℕ) → is_ready self.old q ≡ true → is_ready self.new q ≡ true) }
        ensures users { OnOk result ((e : edge) → Contains self.old.users e → e.source ≡ task → is_ready self.new e.target ≡ true) }
        ensures needs { self.new.needs ≡ self.old.needs }
        ensures keep { self.new.users ≡ self.old.users }
        ensures met { self.new.met ≡ self.old.met }
    {
        self.left.remove(&task);
        insert_targets(&mut self.ready, self.users.of(Serial::new(task)))
    }
}

/// The first place, from `start` on, of an edge to a task that is left; the number of edges where
/// there is none.
fn first_left(left: &BTreeSet<u64>, edges: &[Edge], start: usize) -> usize
    requires { AreMet (tree.contains nat_cmp left.now) edges.now start }
    ensures past { AreMet (tree.contains nat_cmp left.now) edges.now result }
    ensures stops { (d : edge) → result < length edges.now → tree.contains nat_cmp left.now (slice_index_or edges.now result d).target ≡ true }
{
    let mut place = start;
    while place < edges.len() {
        if left.contains(&edges[place].target.number()) {
            return place;
        }
        place += 1;
    }
    place
}

/// Puts the targets of edges into a set.
fn insert_targets(set: &mut BTreeSet<u64>, edges: &[Edge]) -> Result<(), AllocError>
    ensures stay { OnOk result ((q : ℕ) → tree.contains nat_cmp set.old q ≡ true → tree.contains nat_cmp set.new q ≡ true) }
    ensures put { OnOk result ((e : edge) → Contains edges.now e → tree.contains nat_cmp set.new e.target ≡ true) }
{
    for edge in edges {
        set.insert(edge.target.number())?;
    }
    Ok(())
}

/// The numbers below a limit.
fn all_below(alloc: Global, limit: u64) -> Result<BTreeSet<u64>, AllocError>
    ensures { IfOk result (λ set. (q : ℕ) → tree.contains nat_cmp set q ≡ nat_lt q limit) }
{
    let mut set = BTreeSet::new(alloc);
    for number in 0..limit {
        set.insert(number)?;
    }
    Ok(set)
}

/// The edges the other way round.
fn turned(alloc: Global, edges: &[Edge]) -> Result<Vec<Edge>, AllocError>
    ensures { IfOk result (λ others. others.items ≡ map flip_of edges.now) }
{
    let mut others = Vec::new(alloc);
    for edge in edges {
        let Edge { source, target } = *edge;
        others.push(Edge {
            source: target,
            target: source,
        })?;
    }
    Ok(others)
}
