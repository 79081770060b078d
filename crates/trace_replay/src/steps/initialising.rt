//! Constructors and destructors that have run.

ghost use Rattle.std.specs.Prelude.{◌≡◌, ◌==◌, filter, map, not, OnErr, OnOk};
ghost use Rattle.trace_replay.specs.Inside.{lists_of};
ghost use Rattle.trace_replay.specs.Steps.{initialised, started, starts, without_first};

use crate::tables::Tables;
use history_event::Loading;
use ld_base::{Serial, Serials};
use link_spaces::make_ready;
use std::alloc::{AllocError, Global};
use std::mem;

/// An object's constructors have run: it is ready.
///
/// # Errors
///
/// Want of memory. Nothing has changed then.
pub(crate) fn initialise(
    alloc: Global,
    tables: &mut Tables,
    object: Serial,
) -> Result<(), AllocError>
    ensures ok { OnOk result (lists_of tables.new ≡ initialised object (lists_of tables.old)) }
    ensures heads { tables.new.heads ≡ tables.old.heads }
    ensures err { OnErr result (lists_of tables.new ≡ lists_of tables.old) }
{
    tables.unfinished.push(object)?;
    make_ready(alloc, tables.namespaces.as_mut_slice(), object);
    start_all(alloc, &mut tables.starting, object);
    Ok(())
}

/// An object that is initialised is left no more.
fn start_all(alloc: Global, starting: &mut Vec<Loading>, object: Serial)
    ensures { starting.new.items ≡ started object starting.old.items }
{
    start_each(alloc, starting.as_mut_slice(), object);
    starting.retain(|left| !left.serials.is_empty());
}

/// The same of each loading.
fn start_each(alloc: Global, starting: &mut [Loading], object: Serial)
    ensures { starting.new ≡ map (without_first object) starting.old }
{
    for left in starting.iter_mut() {
        start(alloc, left, object);
    }
}

/// The same of one loading.
fn start(alloc: Global, left: &mut Loading, object: Serial)
    ensures { left.new ≡ without_first object left.old }
{
    if starts(left, object) {
        let mut serials = mem::replace(&mut left.serials, Serials::new(alloc)).into_vec();
        serials.remove(0);
        left.serials = Serials::from(serials);
    }
}

/// Whether an object is the next of those that are left.
fn starts(left: &Loading, object: Serial) -> bool
    ensures { result ≡ starts object left.now }
{
    left.serials.as_slice().first() == Some(&object)
}

/// An object's destructors have run.
pub(crate) fn finalise(unfinished: &mut Vec<Serial>, object: Serial)
    ensures { unfinished.new.items ≡ filter (λ d. not (d == object)) unfinished.old.items }
{
    unfinished.retain(|serial| *serial != object);
}
