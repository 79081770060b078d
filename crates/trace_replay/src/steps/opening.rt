//! Openings.

ghost use Rattle.std.specs.Prelude.{◌≡◌, ◌+◌, ◌<◌, ◌≤◌, ◌^◌, ◌++◌, ◌||◌, IsTrue, OnErr, OnOk};
ghost use Rattle.std.specs.Vec.{vec_capacity, vec_len};
ghost use Rattle.history_state.specs.State.{State};
ghost use Rattle.history_state.specs.Step.{pinned_by};
ghost use Rattle.trace_replay.specs.Inside.{lists_of};
ghost use Rattle.trace_replay.specs.Opened.{AreRoomy, Brings as IsBrought, CanBring, CanOpen, OpensAs, binds_by, put_by, starting_of};

use crate::steps::bringing::{Brings, bring, put_all};
use crate::steps::refusing::keep;
use crate::tables::Tables;
use history_event::{ChoiceLists, Loading, OpenAnswer, Opening, Ranges};
use ld_base::{Added, HartId, NsId, Serial, Serials};
use link_lists::{is_global, is_nodelete, is_now};
use link_open_images::reserve_all;
use link_spaces::open_in;
use std::alloc::{AllocError, Global};

/// Serials are counted up to this number.
const LIMIT: u64 = 1 << 62;

/// What an opening makes of the lists.
///
/// # Errors
///
/// Want of memory. Nothing has changed then.
pub(crate) fn open(alloc: Global, tables: &mut Tables, opening: Opening) -> Result<(), AllocError>
    requires { CanOpen (lists_of tables.old) opening.answer opening.choices }
    ensures ok { OnOk result (OpensAs (lists_of tables.old) opening.hart opening.ask.flags opening.answer opening.choices (lists_of tables.new)) }
    ensures heads { tables.new.heads ≡ tables.old.heads }
    ensures err { OnErr result (lists_of tables.new ≡ lists_of tables.old) }
{
    let Opening {
        hart,
        ask,
        answer,
        choices,
    } = opening;
    match answer {
        OpenAnswer::Done {
            ns,
            root,
            added,
            ranges,
        } => open_new(
            alloc, tables, hart, ask.flags, ns, root, added, &ranges, &choices,
        ),
        OpenAnswer::Absent => Ok(()),
        OpenAnswer::Refused(fault) => keep(alloc, &mut tables.kept, hart, &fault),
    }
}

/// What an opening that is done makes of them.
///
/// # Errors
///
/// Want of memory. Nothing has changed then.
fn open_new(
    alloc: Global,
    tables: &mut Tables,
    hart: HartId,
    flags: u64,
    ns: NsId,
    root: Serial,
    added: Added,
    ranges: &Ranges,
    choices: &ChoiceLists,
) -> Result<(), AllocError>
    requires { CanBring (lists_of tables.old) added ranges.now choices.now }
    ensures ok { OnOk result (IsBrought (lists_of tables.old) hart flags ns root added ranges.now choices.now (lists_of tables.new)) }
    ensures heads { tables.new.heads ≡ tables.old.heads }
    ensures err { OnErr result (lists_of tables.new ≡ lists_of tables.old) }
{
    if !has_serials(tables.next, added.len()) {
        return Err(AllocError);
    }
    let now = binds(tables, flags);
    let startup = tables.begins;
    let (objects, choices) = (added.as_slice(), choices.as_slice());
    let brings = bring(alloc, &tables.modules, startup, now, objects, choices)?;
    make_room(tables, added.len(), ranges.len())?;
    let global = is_global(flags);
    open_in(alloc, &mut tables.namespaces, ns, added, root, global)?;
    reserve_all(&mut tables.reserved, ranges.as_slice());
    pin(&mut tables.pinned, flags, root);
    put(tables, hart, flags, brings);
    Ok(())
}

/// Whether slots are bound at load by an opening with these flags.
fn binds(tables: &Tables, flags: u64) -> bool
    ensures { result ≡ binds_by (lists_of tables.now) flags }
{
    is_now(flags) || (!tables.begins && tables.binds)
}

/// Whether there are serials for so many objects more.
fn has_serials(next: u64, objects: usize) -> bool
    ensures { IsTrue result → next + objects < 2 ^ 62 }
{
    next < LIMIT && (objects as u64) < LIMIT - next
}

/// Makes room for so many objects and ranges more.
///
/// # Errors
///
/// Want of memory.
fn make_room(tables: &mut Tables, objects: usize, ranges: usize) -> Result<(), AllocError>
    ensures same { lists_of tables.new ≡ lists_of tables.old }
    ensures heads { tables.new.heads ≡ tables.old.heads }
    ensures chosen { OnOk result (vec_len tables.new.chosen + objects ≤ vec_capacity tables.new.chosen) }
    ensures pinned { OnOk result (vec_len tables.new.pinned + 1 ≤ vec_capacity tables.new.pinned) }
    ensures starting { OnOk result (vec_len tables.new.starting + 1 ≤ vec_capacity tables.new.starting) }
    ensures ranges { OnOk result (ranges ≤ tables.new.reserved.spare) }
{
    tables.chosen.reserve(objects)?;
    tables.pinned.reserve(1)?;
    tables.starting.reserve(1)?;
    tables.reserved.make_room(ranges)
}

/// The root stays, where the flags say so.
fn pin(pinned: &mut Vec<Serial>, flags: u64, root: Serial)
    requires { vec_len pinned.old + 1 ≤ vec_capacity pinned.old }
    ensures { pinned.new.items ≡ pinned.old.items ++ pinned_by pinned.old.items flags root }
{
    if is_nodelete(flags) && !pinned.contains(&root) {
        pinned.push_reserved(root);
    }
}

/// What the opening brings is there: the namespaces have the new objects.
fn put(tables: &mut Tables, hart: HartId, flags: u64, brings: Brings)
    requires chosen { vec_len tables.old.chosen + vec_len brings.news ≤ vec_capacity tables.old.chosen }
    requires starting { vec_len tables.old.starting + 1 ≤ vec_capacity tables.old.starting }
    requires serials { tables.old.next + vec_len brings.serials < 2 ^ 62 }
    requires room { AreRoomy brings.news.items }
    ensures lists { (s : State) → s.namespaces ≡ tables.old.namespaces.items → lists_of tables.new ≡ put_by s hart flags brings (lists_of tables.old) }
    ensures heads { tables.new.heads ≡ tables.old.heads }
{
    let Brings {
        modules,
        news,
        serials,
        order,
    } = brings;
    tables.modules = modules;
    tables.next += serials.len() as u64;
    put_all(tables.namespaces.as_slice(), &mut tables.chosen, news);
    put_starting(&mut tables.starting, hart, order);
    if tables.begins {
        tables.binds = is_now(flags);
        tables.begins = serials.is_empty();
        tables.startup = serials;
    }
}

/// What is left of the loading goes behind the others, if it has some.
fn put_starting(starting: &mut Vec<Loading>, hart: HartId, order: Vec<Serial>)
    requires { vec_len starting.old + 1 ≤ vec_capacity starting.old }
    ensures { starting.new.items ≡ starting.old.items ++ starting_of hart order.items }
{
    if !order.is_empty() {
        let serials = Serials::from(order);
        starting.push_reserved(Loading { hart, serials });
    }
}
