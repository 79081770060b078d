//! What slots choose, and grants of them.

ghost use Rattle.std.specs.Prelude.{◌≡◌, ◌==◌, ◌↔◌, ◌+◌, List, None, Some, false, true, not, slice_get, IfNone, IfOk, IfSome, IsTrue};
ghost use Rattle.std.specs.List.{list_all};
ghost use Rattle.history_event.specs.declared.event.Event.{Event};
ghost use Rattle.history_event.specs.declared.event.Event.TheVariants.{Grant, Unresolved};
ghost use Rattle.history_state.specs.Addresses.{address, leads_to_code};
ghost use Rattle.history_state.specs.After.{after};
ghost use Rattle.history_state.specs.State.{State};
ghost use Rattle.link_spaces.specs.ObjectHolders.Holders.{AllAccepted};
ghost use Rattle.trace_replay.specs.Shown.{Shows};
ghost use Rattle.trace_rows.specs.Rows.{IsDecided};
ghost use Rattle.trace_rows.specs.Slots.{ChoosesOf, ComesOfSlot, IsSlotOf, IsUnboundTo};

use crate::rows::all;
use elf_object::one_object;
use history_event::Granting;
use history_journal::one_image;
use history_state::{objects_are_apart, objects_are_read};
use ld_base::{Choice, GrantNo, HartId, Loaded, Object, Reloc, Serial};
use link_spaces::{address_of, home_in, leads_to_code, moved_word, object_in};
use scope_rule::{Namespace, choose_reloc};
use std::alloc::{AllocError, Global};
use trace_replay::Replay;

/// What a slot would be bound to.
#[derive(Clone, Copy, PartialEq, Eq)]
pub(crate) struct SlotChoice {
    pub(crate) choice: Choice,
    /// The address of the choice.
    pub(crate) value: u64,
    /// Whether the slot may be bound to it.
    pub(crate) code: bool,
}

/// Whether this grant may be made.
///
/// # Errors
///
/// Want of memory.
pub(crate) fn may_grant(
    alloc: Global,
    replay: &Replay,
    grant: &Granting,
) -> Result<bool, AllocError>
    ensures { IfOk result (λ may. IsDecided replay.now
        (Grant grant.now.number grant.now.hart grant.now.owner grant.now.slot grant.now.choice grant.now.value) may) }
{
    objects_are_apart();
    let chosen = slot_choice(alloc, replay, grant.owner, grant.slot)?;
    let numbered = is_next(grant.number, replay.grants().len());
    let is_free = has_no_grant(replay.grants().open(), grant.hart);
    let leads = leads_to(chosen, grant.choice, grant.value);
    Ok(all(&[numbered, is_free, leads]))
}

/// Whether it is the number of the grant behind so many.
fn is_next(number: GrantNo, grants: usize) -> bool
    ensures { IsTrue result ↔ (number ≡ grants + 1) }
{
    let number = number.number();
    number > 0 && number - 1 == grants as u64
}

/// Whether a hart may have asked for a slot that may not be bound to its choice.
///
/// # Errors
///
/// Want of memory.
pub(crate) fn may_not_bind(
    alloc: Global,
    replay: &Replay,
    hart: HartId,
    owner: Serial,
    slot: u32,
    choice: Choice,
) -> Result<bool, AllocError>
    ensures { IfOk result (λ may. IsDecided replay.now (Unresolved hart owner slot choice) may) }
{
    objects_are_apart();
    let chosen = slot_choice(alloc, replay, owner, slot)?;
    let is_free = has_no_grant(replay.grants().open(), hart);
    let leads = leads_nowhere(chosen, choice);
    Ok(all(&[is_free, leads]))
}

/// Whether a slot may be bound to this choice, at this address.
fn leads_to(chosen: Option<SlotChoice>, choice: Choice, value: u64) -> bool
    ensures { IsTrue result ↔ (chosen ≡ Some (record { choice = choice; value = value; code = true })) }
{
    chosen
        == Some(SlotChoice {
            choice,
            value,
            code: true,
        })
}

/// Whether a slot may not be bound to its choice, which is this.
fn leads_nowhere(chosen: Option<SlotChoice>, choice: Choice) -> bool
    ensures { IsTrue result ↔ IsUnboundTo chosen choice }
{
    match chosen {
        Some(slot) => is_unbound(slot, choice),
        None => false,
    }
}

/// The same of what was found.
fn is_unbound(slot: SlotChoice, choice: Choice) -> bool
    ensures { IsTrue result ↔ (slot ≡ record { choice = choice; value = slot.value; code = false }) }
{
    slot == SlotChoice {
        choice,
        value: slot.value,
        code: false,
    }
}

/// Whether no open grant is of a hart.
fn has_no_grant(open: &[Granting], hart: HartId) -> bool
    ensures { result ≡ list_all (λ g. not (g.hart == hart)) open.now }
{
    open.iter().all(|grant| grant.hart != hart)
}

/// What a slot of an object chooses now; none where no mapped object has such a slot.
///
/// # Errors
///
/// Want of memory.
fn slot_choice(
    alloc: Global,
    replay: &Replay,
    owner: Serial,
    slot: u32,
) -> Result<Option<SlotChoice>, AllocError>
    ensures { IfOk result (λ found. (past : List Event) → Shows past replay.now → ComesOfSlot (after past) owner slot found) }
{
    objects_are_apart();
    objects_are_read();
    one_object();
    one_image();
    replay.has_history();
    let namespaces = replay.namespaces();
    let Some(namespace) = home_in(namespaces, owner) else {
        return Ok(None);
    };
    let Some(object) = object_in(namespaces, owner) else {
        return Ok(None);
    };
    let Some(reloc) = slot_at(&object.object, slot) else {
        return Ok(None);
    };
    let chosen = choice_of(alloc, namespaces, namespace, object, reloc)?;
    Ok(Some(chosen))
}

/// The relocation of the slot of this number.
fn slot_at(object: &Object, slot: u32) -> Option<&Reloc>
    ensures found { IfSome result (λ r. slice_get object.now.plt_relocs slot ≡ Some r.now) }
    ensures none { IfNone result (slice_get object.now.plt_relocs slot ≡ None) }
{
    object.plt_relocs.as_slice().get(slot as usize)
}

/// What the slot of this relocation chooses.
///
/// # Errors
///
/// Want of memory.
fn choice_of(
    alloc: Global,
    namespaces: &[Namespace],
    namespace: &Namespace,
    object: &Loaded,
    reloc: &Reloc,
) -> Result<SlotChoice, AllocError>
    requires accepted { AllAccepted namespaces.now }
    requires slot { IsSlotOf object.now reloc.now }
    ensures { IfOk result (λ chosen. (s : State) → s.namespaces ≡ namespaces.now → ChoosesOf s namespace.now object.now reloc.now chosen) }
{
    let view = namespace.view();
    let choice = choose_reloc(alloc, &view, object, reloc)?;
    let lazy = moved_word(&object.object, object.base, reloc.place);
    Ok(chosen(namespaces, lazy, &choice))
}

/// What comes of a choice for a slot that holds this word until it is bound.
fn chosen(namespaces: &[Namespace], lazy: u64, choice: &Choice) -> SlotChoice
    requires { AllAccepted namespaces.now }
    ensures choice { result.choice ≡ choice.now }
    ensures value { (s : State) → s.namespaces ≡ namespaces.now → result.value ≡ address s choice.now }
    ensures code { (s : State) → s.namespaces ≡ namespaces.now → result.code ≡ leads_to_code s lazy choice.now }
{
    let value = address_of(namespaces, *choice);
    let code = leads_to_code(namespaces, lazy, *choice);
    SlotChoice {
        choice: *choice,
        value,
        code,
    }
}
