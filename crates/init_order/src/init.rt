//! The order of initialisation.

ghost use Rattle.std.specs.Prelude.{◌≡◌, ◌==◌, ◌+◌, ◌++◌, ℕ, filter, length, nat_lt, not, IfOk, OnOk};
ghost use Rattle.history_graph.specs.Initialised.{InitOrder, program_last};
ghost use Rattle.init_order.specs.Jobs.{AreFirsts, AreInTurn};
ghost use Rattle.init_order.specs.Least.{ArePending, is_left};

use crate::components::components_of;
use crate::needs::needs_of;
use crate::tasks::Tasks;
use history_graph::Graph;
use ld_base::Serial;
use std::alloc::{AllocError, Global};
use std::collections::HashSet;

/// The order in which new objects are initialised: each is the first, in load order but that the
/// program is last, of those that wait for none of the others. An object waits for those that it leads
/// to and that don't lead back to it.
///
/// # Errors
///
/// Want of memory.
pub fn init_order(
    alloc: Global,
    graph: &Graph,
    new: &[Serial],
    program: Option<Serial>,
) -> Result<Vec<Serial>, AllocError>
    ensures ordered { IfOk result (λ order. InitOrder graph.now.edges (program_last program new.now) order.items) }
{
    let looked_at = with_program_last(alloc, new, program)?;
    let line = firsts(alloc, looked_at.as_slice())?;
    let components = components_of(alloc, graph, line.as_slice())?;
    let needs = needs_of(alloc, graph, &components, line.as_slice())?;
    let first = 2 * components.count;
    let limit = (first + line.len()) as u64;
    let mut tasks = Tasks::new(alloc, limit, needs.as_slice())?;
    start_all(alloc, &mut tasks, first as u64, line.as_slice())
}

/// The objects with the program behind the others.
fn with_program_last(
    alloc: Global,
    new: &[Serial],
    program: Option<Serial>,
) -> Result<Vec<Serial>, AllocError>
    ensures { IfOk result (λ line. line.items ≡ program_last program new.now) }
{
    let Some(program) = program else {
        return Vec::from_slice(alloc, new);
    };
    let mut line: Vec<Serial> = others(alloc, new, program)?;
    push_same(&mut line, new, program)?;
    Ok(line)
}

/// The serials but one.
fn others(alloc: Global, serials: &[Serial], one: Serial) -> Result<Vec<Serial>, AllocError>
    ensures { IfOk result (λ line. line.items ≡ filter (λ o. not (o == one)) serials.now) }
{
    let serials = serials.iter().copied();
    serials.filter(|serial| *serial != one).collect(alloc)
}

/// Puts each that is this one at the end.
fn push_same(line: &mut Vec<Serial>, serials: &[Serial], one: Serial) -> Result<(), AllocError>
    ensures { OnOk result (line.new.items ≡ line.old.items ++ filter (λ o. o == one) serials.now) }
{
    for serial in serials {
        if *serial == one {
            line.push(*serial)?;
        }
    }
    Ok(())
}

/// Each serial where it stands first.
fn firsts(alloc: Global, serials: &[Serial]) -> Result<Vec<Serial>, AllocError>
    ensures { IfOk result (λ line. AreFirsts serials.now line.items) }
{
    let mut line = Vec::new(alloc);
    let mut seen = HashSet::new(alloc);
    for serial in serials {
        if !seen.insert(*serial)? {
            continue;
        }
        line.push(*serial)?;
    }
    Ok(line)
}

/// The objects in the order in which their tasks are done; these have the numbers from `first` on.
fn start_all(
    alloc: Global,
    tasks: &mut Tasks,
    first: u64,
    line: &[Serial],
) -> Result<Vec<Serial>, AllocError>
    requires pending { ArePending tasks.old }
    requires fresh { (q : ℕ) → is_left tasks.old q ≡ nat_lt q (first + length line.now) }
    ensures { IfOk result (λ order. AreInTurn first line.now tasks.old.needs order.items) }
{
    let mut order = Vec::new(alloc);
    while let Some(task) = tasks.next()? {
        if task < first {
            continue;
        }
        order.push(line[(task - first) as usize])?;
    }
    Ok(order)
}
