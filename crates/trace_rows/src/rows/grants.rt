//! Grants that are settled.

ghost use Rattle.std.specs.Prelude.{◌≡◌, ◌==◌, find};
ghost use Rattle.std.specs.List.{list_any, slice_get};
ghost use Rattle.std.specs.Option.{option_and_then, option_copied};
ghost use Rattle.history_event.specs.declared.event.Event.TheVariants.{Bound, Lost};
ghost use Rattle.history_state.specs.Slots.{value_at_load};
ghost use Rattle.history_state.specs.State.{State};
ghost use Rattle.trace_replay.specs.Shown.{IsShown};
ghost use Rattle.trace_rows.specs.Grants.{IsValueOf, is_other};
ghost use Rattle.trace_rows.specs.Rows.{IsDecided};

use history_event::{Chosen, Granting};
use history_state::grants_are_tidy;
use ld_base::{GrantNo, Serial};
use trace_replay::Replay;

/// Whether an open grant may be settled, since its slot got its value.
pub(crate) fn may_bind(replay: &Replay, number: GrantNo) -> bool
    ensures { IsDecided replay.now (Bound number) result }
{
    grants_are_tidy();
    let Some(grant) = replay.grants().open_grant(number) else {
        return false;
    };
    slot_value(replay, grant.owner, grant.slot).is_none()
}

/// Whether an open grant may be settled, since its slot held this word.
pub(crate) fn may_lose(replay: &Replay, number: GrantNo, saw: u64) -> bool
    ensures { IsDecided replay.now (Lost number saw) result }
{
    grants_are_tidy();
    let Some(grant) = replay.grants().open_grant(number) else {
        return false;
    };
    slot_value(replay, grant.owner, grant.slot) == Some(saw)
        || has_other(replay.grants().open(), &grant, saw)
}

/// The value of a slot: of its object's loading, or of a bound grant.
pub(crate) fn slot_value(replay: &Replay, owner: Serial, slot: u32) -> Option<u64>
    ensures { (s : State) → IsShown s replay.now → IsValueOf s owner slot result }
{
    if let Some(value) = value_at_load(replay.chosen(), owner, slot) {
        return Some(value);
    }
    match replay.grants().bound_to(owner, slot) {
        Some(bound) => Some(bound.value),
        None => None,
    }
}

/// The value that a slot got when its object was loaded.
fn value_at_load(chosen: &[Chosen], owner: Serial, slot: u32) -> Option<u64>
    ensures { (s : State) → s.chosen ≡ chosen.now → result ≡ value_at_load s owner slot }
{
    match chosen_by(chosen, owner) {
        Some(object) => value_at(object.values.as_slice(), slot),
        None => None,
    }
}

/// What an object chose when it was loaded.
fn chosen_by(chosen: &[Chosen], owner: Serial) -> Option<&Chosen>
    ensures { option_copied result ≡ find (λ c. c.owner == owner) chosen.now }
{
    for object in chosen {
        if object.owner == owner {
            return Some(object);
        }
    }
    None
}

/// The value of the slot of this number.
fn value_at(values: &[Option<u64>], slot: u32) -> Option<u64>
    ensures { result ≡ option_and_then (λ value. value) (slice_get values.now slot) }
{
    match values.get(slot as usize) {
        Some(value) => *value,
        None => None,
    }
}

/// Whether another of these grants, of the same slot, has this value.
fn has_other(grants: &[Granting], of: &Granting, value: u64) -> bool
    ensures { result ≡ list_any (is_other of.now value) grants.now }
{
    grants.iter().any(|grant| is_other(grant, of, value))
}

/// Whether it is this grant.
fn is_other(grant: &Granting, of: &Granting, value: u64) -> bool
    ensures { result ≡ is_other of.now value grant.now }
{
    grant.owner == of.owner
        && grant.slot == of.slot
        && grant.number != of.number
        && grant.value == value
}
