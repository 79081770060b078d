//! Constructors and destructors that have run.

ghost use Rattle.std.specs.Prelude.{◌≡◌};
ghost use Rattle.std.specs.List.{list_any};
ghost use Rattle.history_event.specs.declared.event.Event.TheVariants.{Fini, Init};
ghost use Rattle.trace_rows.specs.Functions.{is_due_at_end, is_next_of, starts_by};
ghost use Rattle.trace_rows.specs.Rows.{IsDecided};

use crate::rows::unmapping::next_of;
use history_event::{Closing, Loading};
use ld_base::{HartId, Serial};
use trace_replay::Replay;

/// Whether the constructors of an object may have run next, by the hart that loaded it.
pub(crate) fn may_initialise(replay: &Replay, hart: HartId, object: Serial) -> bool
    ensures { IsDecided replay.now (Init hart object) result }
{
    has_next(replay.starting(), hart, object)
}

/// Whether the object is the next of what is left of one of these loadings, by the hart.
fn has_next(starting: &[Loading], hart: HartId, object: Serial) -> bool
    ensures { result ≡ list_any (starts_by hart object) starting.now }
{
    starting.iter().any(|left| is_next(left, hart, object))
}

/// Whether the object is the next of a loading of the hart.
fn is_next(left: &Loading, hart: HartId, object: Serial) -> bool
    ensures { result ≡ starts_by hart object left.now }
{
    left.hart == hart && left.serials.as_slice().first() == Some(&object)
}

/// Whether the destructors of an object may have run next: by a closing of the hart, or at the end.
pub(crate) fn may_finalise(replay: &Replay, hart: HartId, object: Serial) -> bool
    ensures { IsDecided replay.now (Fini hart object) result }
{
    is_next_closed(replay.closings(), replay.unfinished(), hart, object)
        || (hart.number() == 0 && is_next_at_end(replay, object))
}

/// Whether the object is the next of a closing of the hart.
fn is_next_closed(closings: &[Closing], unfinished: &[Serial], hart: HartId, object: Serial) -> bool
    ensures { result ≡ list_any (is_next_of unfinished.now hart object) closings.now }
{
    closings
        .iter()
        .any(|closing| is_next_of(closing, unfinished, hart, object))
}

/// Whether it is the next of this one.
fn is_next_of(closing: &Closing, unfinished: &[Serial], hart: HartId, object: Serial) -> bool
    ensures { result ≡ is_next_of unfinished.now hart object closing.now }
{
    closing.hart == hart && next_of(unfinished, closing.set.as_slice()) == Some(object)
}

/// Whether the object is mapped and unfinished, and was the next of all since every hart exited.
fn is_next_at_end(replay: &Replay, object: Serial) -> bool
    ensures { result ≡ is_due_at_end object replay.now }
{
    replay.is_mapped(object)
        && replay.unfinished().contains(&object)
        && replay.heads().contains(&object)
}
