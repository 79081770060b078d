//! What is next of all mapped objects, once every hart has exited.

ghost use Rattle.std.specs.Prelude.{◌≡◌, ◌<◌};
ghost use Rattle.std.specs.List.{list_all};
ghost use Rattle.std.specs.Vec.{vec_capacity, vec_len};
ghost use Rattle.history_graph.specs.Initialised.{is_one_of};
ghost use Rattle.history_state.specs.Setting.{exited};
ghost use Rattle.trace_replay.specs.Heads.{exits_by, head_in, serials_in, with_head};
ghost use Rattle.trace_replay.specs.Inside.{lists_of};

use crate::tables::Tables;
use history_event::{Ending, HartEnd};
use ld_base::Serial;
use link_spaces::object_in;
use scope_rule::Namespace;

/// Notes the object that is the next to be finalised of all that are mapped, if every hart has exited.
pub(crate) fn note_head(tables: &mut Tables)
    requires { vec_len tables.old.heads < vec_capacity tables.old.heads }
    ensures { lists_of tables.new ≡ with_head (lists_of tables.old) }
{
    if !have_exited(tables.harts, tables.endings.as_slice()) {
        return;
    }
    if let Some(head) = head_of(tables.unfinished.as_slice(), tables.namespaces.as_slice())
        && !tables.heads.contains(&head)
    {
        tables.heads.push_reserved(head);
    }
}

/// Whether as many harts as there are have ended, each by exit.
pub fn have_exited(harts: u32, endings: &[Ending]) -> bool
    ensures { result ≡ exits_by harts endings.now }
{
    let harts = harts as usize;
    harts <= endings.len() && are_exits(&endings[..harts])
}

/// Whether all of these ends are exits.
fn are_exits(endings: &[Ending]) -> bool
    ensures { result ≡ list_all exited endings.now }
{
    endings.iter().all(has_exited)
}

/// Whether an end is an exit.
fn has_exited(ending: &Ending) -> bool
    ensures { result ≡ exited ending.now }
{
    matches!(ending.end, HartEnd::Exit(_))
}

/// The latest of some objects that is mapped.
fn head_of(unfinished: &[Serial], namespaces: &[Namespace]) -> Option<Serial>
    ensures { result ≡ head_in unfinished.now namespaces.now }
{
    unfinished
        .iter()
        .rev()
        .copied()
        .find(|serial| is_mapped(namespaces, *serial))
}

/// Whether an object of a namespace has a serial.
pub(crate) fn is_mapped(namespaces: &[Namespace], serial: Serial) -> bool
    ensures { result ≡ is_one_of (serials_in namespaces.now) serial }
{
    match object_in(namespaces, serial) {
        Some(_) => true,
        None => false,
    }
}
