//! Closings, and what they unmap.

ghost use Rattle.std.specs.Prelude.{◌≡◌, ◌+◌, ◌^◌, ◌<◌, ◌++◌, filter, length, not, OnErr, OnOk};
ghost use Rattle.history_state.specs.Objects.{has};
ghost use Rattle.history_state.specs.Step.{closing_of, is_closing};
ghost use Rattle.tls_blocks.specs.Numbers.{AreNumbered};
ghost use Rattle.trace_replay.specs.Inside.{lists_of};
ghost use Rattle.trace_replay.specs.Steps.{closed, unmapped};

use crate::steps::refusing::keep;
use crate::tables::Tables;
use close_mark::{count_in, remove_modules, take_out};
use history_event::{Chosen, CloseAnswer, Closing};
use history_graph::SerialSet;
use ld_base::{HartId, Serial, Serials};
use link_spaces::{lower, make_dying};
use std::alloc::{AllocError, Global};

/// What a closing of a handle makes of the lists.
///
/// # Errors
///
/// Want of memory. Nothing has changed then.
pub(crate) fn close(
    alloc: Global,
    tables: &mut Tables,
    hart: HartId,
    handle: u64,
    answer: &CloseAnswer,
) -> Result<(), AllocError>
    ensures ok { OnOk result (lists_of tables.new ≡ closed hart handle answer.now (lists_of tables.old)) }
    ensures heads { tables.new.heads ≡ tables.old.heads }
    ensures err { OnErr result (lists_of tables.new ≡ lists_of tables.old) }
{
    match answer {
        CloseAnswer::Done(set) => {
            let set = set.as_slice();
            push_closing(alloc, &mut tables.closings, hart, set)?;
            let namespaces = tables.namespaces.as_mut_slice();
            lower(alloc, namespaces, Serial::new(handle));
            make_dying(alloc, namespaces, hart, set);
            Ok(())
        }
        CloseAnswer::Refused(fault) => keep(alloc, &mut tables.kept, hart, fault),
    }
}

/// A closing waits for its objects, where it has some.
fn push_closing(
    alloc: Global,
    closings: &mut Vec<Closing>,
    hart: HartId,
    set: &[Serial],
) -> Result<(), AllocError>
    ensures ok { OnOk result (closings.new.items ≡ closings.old.items ++ closing_of hart set.now) }
    ensures err { OnErr result (closings.new.items ≡ closings.old.items) }
{
    if set.is_empty() {
        return Ok(());
    }
    let set = Serials::from_slice(alloc, set)?;
    closings.push(Closing { hart, set })?;
    Ok(())
}

/// The objects of a closing go, with all that is of them.
///
/// # Errors
///
/// Want of memory. Nothing has changed then.
pub(crate) fn unmap(
    alloc: Global,
    tables: &mut Tables,
    hart: HartId,
    set: &[Serial],
) -> Result<(), AllocError>
    requires numbered { AreNumbered tables.old.modules.modules }
    requires few { tables.old.modules.generation + length tables.old.modules.modules < 2 ^ 64 }
    ensures ok { OnOk result (lists_of tables.new ≡ unmapped hart set.now (lists_of tables.old)) }
    ensures heads { tables.new.heads ≡ tables.old.heads }
    ensures err { OnErr result (lists_of tables.new ≡ lists_of tables.old) }
{
    let mut objects = Vec::with_capacity(alloc, count_in(tables.namespaces.as_slice(), set)?)?;
    let mut ranges = Vec::with_capacity(alloc, tables.reserved.count_going(set))?;
    take_out(alloc, &mut tables.namespaces, set, &mut objects);
    tables.reserved.remove(set, &mut ranges);
    remove_modules(&mut tables.modules, set);
    tables.blocks.remove(set);
    remove_chosen(&mut tables.chosen, set);
    remove_closing(&mut tables.closings, hart, set);
    Ok(())
}

/// What the objects of a set chose goes.
fn remove_chosen(chosen: &mut Vec<Chosen>, set: &[Serial])
    ensures { chosen.new.items ≡ filter (λ c. not (has set.now c.owner)) chosen.old.items }
{
    let set = SerialSet::new(set);
    chosen.retain(|one| !set.has(one.owner));
}

/// The closing of these objects is over.
fn remove_closing(closings: &mut Vec<Closing>, hart: HartId, set: &[Serial])
    ensures { closings.new.items ≡ filter (λ c. not (is_closing hart set.now c)) closings.old.items }
{
    closings.retain(|closing| !is_closing(closing, hart, set));
}

/// Whether it is that closing.
fn is_closing(closing: &Closing, hart: HartId, set: &[Serial]) -> bool
    ensures { result ≡ is_closing hart set.now closing.now }
{
    closing.hart == hart && closing.set.as_slice() == set
}
