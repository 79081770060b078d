//! Objects that are unmapped.

ghost use Rattle.std.specs.Prelude.{◌≡◌, find, reverse};
ghost use Rattle.std.specs.List.{list_any};
ghost use Rattle.history_event.specs.declared.event.Event.TheVariants.{Unmapped};
ghost use Rattle.history_graph.specs.Initialised.{is_one_of};
ghost use Rattle.history_state.specs.Step.{is_closing};
ghost use Rattle.trace_rows.specs.Rows.{IsDecided};

use crate::rows::all;
use close_mark::{first_is_least, holding};
use history_event::Closing;
use ld_base::{HartId, Serial};
use trace_replay::Replay;

/// Whether a hart may have unmapped these objects: they are those of a closing of its own, their destructors have
/// run, and no open grant is of one of them or leads there.
pub(crate) fn may_unmap(replay: &Replay, hart: HartId, set: &[Serial]) -> bool
    ensures { IsDecided replay.now (Unmapped hart set.now) result }
{
    first_is_least();
    let next = next_of(replay.unfinished(), set);
    let holder = holding(replay.grants().open(), set);
    all(&[
        !set.is_empty(),
        has_closing(replay.closings(), hart, set),
        next.is_none(),
        holder.is_none(),
    ])
}

/// The object of a set that is finalised next: the latest that was initialised.
pub(crate) fn next_of(unfinished: &[Serial], set: &[Serial]) -> Option<Serial>
    ensures { result ≡ find (is_one_of set.now) (reverse unfinished.now) }
{
    unfinished
        .iter()
        .rev()
        .copied()
        .find(|serial| set.contains(serial))
}

/// Whether the hart has a closing of these objects.
fn has_closing(closings: &[Closing], hart: HartId, set: &[Serial]) -> bool
    ensures { result ≡ list_any (is_closing hart set.now) closings.now }
{
    closings
        .iter()
        .any(|closing| is_closing(closing, hart, set))
}

/// Whether it is this closing.
fn is_closing(closing: &Closing, hart: HartId, set: &[Serial]) -> bool
    ensures { result ≡ is_closing hart set.now closing.now }
{
    closing.hart == hart && closing.set.as_slice() == set
}
