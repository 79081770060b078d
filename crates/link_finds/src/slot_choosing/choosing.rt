//! Choosing for a slot.

ghost use Rattle.std.specs.Prelude.{◌≡◌, ℕ, ◌*◌, ◌/◌, None, Some, slice_get, Contains, IfErr, IfNone, IfOk, IfSome, IsTrue};
ghost use Rattle.ld_base.specs.declared.linking.Loaded.{Loaded as LoadedObject};
ghost use Rattle.history_state.specs.Objects.{has_object};
ghost use Rattle.history_state.specs.State.{State};
ghost use Rattle.scope_rule.specs.Seen.{seen_in};
ghost use Rattle.scope_lists.specs.Lists.{AreListsOf, IsListed};
ghost use Rattle.link_finds.specs.SlotChoosing.Choosing.{ChoosesSlot, HasNamespace, IsSlotFaultOf, IsSound};
ghost use Rattle.link_finds.specs.declared.slot_choosing.choosing.SlotFault.TheVariants.{Memory};

use crate::seen_choices::{address_of, leads_to_code};
use ld_base::{Choice, Object, Reloc, Serial};
use link_spaces::moved_word;
use scope_lists::SearchLists;
use scope_rule::Namespace;
use std::alloc::AllocError;
use sym_lookup::lookup_reloc;

/// What a slot would be bound to.
#[derive(Clone, Copy, PartialEq, Eq)]
pub struct SlotChoice {
    /// Its number among its object's slots.
    pub slot: u32,
    /// Where the slot stands.
    pub address: u64,
    /// What it holds until it is bound.
    pub lazy: u64,
    /// The definition that it would be bound to, if there is one.
    pub choice: Choice,
    /// The address of the choice.
    pub value: u64,
    /// Whether the slot may be bound to it.
    pub code: bool,
}

/// Why there is no choice.
#[derive(Clone, Copy, PartialEq, Eq)]
pub enum SlotFault {
    /// No such object is mapped.
    Unloaded,
    /// It has no such slot.
    NoSlot,
    /// Want of memory.
    Memory,
}

impl From<AllocError> for SlotFault {
    ghost from_gives = { λ _ fault. fault ≡ Memory };

    fn from(_: AllocError) -> Self {
        SlotFault::Memory
    }
}

/// What the slot of an object of a namespace chooses now, `eights` being eight times its number. The lists are
/// those of the namespace and have the object's scope. It takes no memory.
///
/// # Errors
///
/// - NoSlot: the object has no such slot.
/// - Memory: the slot's number is past 32 bits; no object that is read has as many slots.
pub fn slot_choice(
    namespace: &Namespace,
    lists: &SearchLists,
    owner: Serial,
    eights: u64,
) -> Result<SlotChoice, SlotFault>
    requires sound { (o : LoadedObject) → Contains namespace.now.objects o → IsSound o }
    requires lists { AreListsOf (seen_in namespace.now) lists.now }
    requires listed { IsListed lists.now owner }
    requires there { IsTrue (has_object owner namespace.now) }
    ensures ok { IfOk result (λ x. (s : State) → HasNamespace s namespace.now → ChoosesSlot s owner eights x) }
    ensures err { IfErr result (λ e. (s : State) → Contains s.namespaces namespace.now → IsSlotFaultOf s owner eights e) }
{
    let view = namespace.view();
    let object = lists.object(&view, owner).unwrap();
    let Some(reloc) = slot_at(&object.object, eights) else {
        return Err(SlotFault::NoSlot);
    };
    let Ok(slot) = u32::try_from(eights / 8) else {
        return Err(SlotFault::Memory);
    };
    let choice = lookup_reloc(&view, lists, object, reloc);
    let lazy = moved_word(&object.object, object.base, reloc.place);
    let value = address_of(&view, lists, &choice);
    let code = leads_to_code(&view, lists, lazy, &choice);
    Ok(SlotChoice {
        slot,
        address: object.base.wrapping_add(reloc.place),
        lazy,
        choice,
        value,
        code,
    })
}

/// The slot of an object, by eight times its number.
fn slot_at(object: &Object, eights: u64) -> Option<&Reloc>
    ensures found { IfSome result (λ r. slice_get object.now.plt_relocs (eights / 8) ≡ Some r.now) }
    ensures eights { IfSome result (λ r. eights ≡ 8 * (eights / 8)) }
    ensures none { IfNone result ((slot : ℕ) → eights ≡ 8 * slot → slice_get object.now.plt_relocs slot ≡ None) }
{
    if eights % 8 != 0 {
        return None;
    }
    object.plt_relocs.as_slice().get((eights / 8) as usize)
}
