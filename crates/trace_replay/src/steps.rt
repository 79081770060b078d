//! What each event changes.

ghost use Rattle.std.specs.Prelude.{◌≡◌, ◌+◌, ◌∷◌, ◌++◌, ◌<◌, ◌^◌, [], length, OnErr, OnOk};
ghost use Rattle.tls_blocks.specs.Numbers.{AreNumbered};
ghost use Rattle.trace_replay.specs.Inside.{lists_of};
ghost use Rattle.trace_replay.specs.Steps.{IsNumberedNext, IsReady, grants_with, stepped};
ghost use Rattle.trace_replay.specs.Taken.{OpensNothing};

mod bringing;
mod closing;
mod heads;
mod initialising;
mod opening;
mod refusing;
mod storing;

use crate::grants::GrantTable;
use crate::tables::Tables;
use closing::{close, unmap};
pub use heads::have_exited;
pub(crate) use heads::{is_mapped, note_head};
use history_event::{Ending, Event, Granting, HartEnd, Standing};
use initialising::{finalise, initialise};
use ld_base::HartId;
pub(crate) use opening::open;
use refusing::{keep_open, keep_sym};
use std::alloc::{AllocError, Global};
pub(crate) use storing::storage_in;
use storing::store;

/// What an event makes of the lists that brings no object.
///
/// # Errors
///
/// Want of memory. Nothing has changed then.
pub(crate) fn step(alloc: Global, tables: &mut Tables, event: &Event) -> Result<(), AllocError>
    requires opens { OpensNothing event.now }
    requires ready { IsReady event.now (lists_of tables.old) }
    requires numbered { AreNumbered tables.old.modules.modules }
    requires few { tables.old.modules.generation + length tables.old.modules.modules < 2 ^ 64 }
    ensures ok { OnOk result (lists_of tables.new ≡ stepped event.now (lists_of tables.old)) }
    ensures heads { tables.new.heads ≡ tables.old.heads }
    ensures err { OnErr result (lists_of tables.new ≡ lists_of tables.old) }
{
    match event {
        Event::Open { hart, answer, .. } => keep_open(alloc, &mut tables.kept, *hart, answer),
        Event::Close {
            hart,
            handle,
            answer,
        } => close(alloc, tables, *hart, *handle, answer),
        Event::Unmapped { hart, set } => unmap(alloc, tables, *hart, set.as_slice()),
        Event::Sym { hart, answer, .. } => keep_sym(alloc, &mut tables.kept, *hart, answer),
        Event::Tls {
            hart,
            owner,
            address,
        } => store(tables, *hart, *owner, *address),
        Event::Init { object, .. } => initialise(alloc, tables, *object),
        Event::Fini { object, .. } => {
            finalise(&mut tables.unfinished, *object);
            Ok(())
        }
        Event::Told { hart, .. } => {
            let _ = tables.kept.take(*hart);
            Ok(())
        }
        Event::Ended { hart, end } => end_hart(&mut tables.endings, *hart, *end),
        Event::Grant { .. } | Event::Bound { .. } | Event::Lost { .. } => {
            step_grants(&mut tables.grants, event)
        }
        Event::Unresolved { .. } | Event::Wrote { .. } => Ok(()),
    }
}

/// What an event makes of the grants.
///
/// # Errors
///
/// Want of memory. Nothing has changed then.
fn step_grants(grants: &mut GrantTable, event: &Event) -> Result<(), AllocError>
    requires { IsNumberedNext event.now grants.old }
    ensures ok { OnOk result (grants.new ≡ grants_with event.now grants.old) }
    ensures err { OnErr result (grants.new ≡ grants.old) }
{
    match event {
        Event::Grant {
            grant,
            hart,
            owner,
            slot,
            choice,
            value,
        } => grants.push(&Granting {
            number: *grant,
            hart: *hart,
            owner: *owner,
            slot: *slot,
            choice: *choice,
            value: *value,
            standing: Standing::Open,
        }),
        Event::Bound { grant } => grants.settle(*grant, Standing::Bound),
        Event::Lost { grant, saw } => grants.settle(*grant, Standing::Lost(*saw)),
        _ => Ok(()),
    }
}

/// A hart ends.
///
/// # Errors
///
/// Want of memory. Nothing has changed then.
fn end_hart(endings: &mut Vec<Ending>, hart: HartId, end: HartEnd) -> Result<(), AllocError>
    ensures ok { OnOk result (endings.new.items ≡ endings.old.items ++ record { hart = hart; «end» = «end» } ∷ []) }
    ensures err { OnErr result (endings.new.items ≡ endings.old.items) }
{
    endings.push(Ending { hart, end })?;
    Ok(())
}
