//! Where slots stand.

ghost use Rattle.std.specs.Prelude.{◌≡◌, ◌<◌, ◌^◌, ◌++◌, IfOk, OnOk, Contains};
ghost use Rattle.std.specs.List.{flat_map};
ghost use Rattle.ld_base.specs.declared.linking.Loaded.{Loaded as loaded};
ghost use Rattle.history_calls.specs.Served.{slot_word, slots_of};
ghost use Rattle.seg_image.specs.Accepted.{Accepted};

use history_calls::{SlotWord, SlotWords};
use ld_base::{Loaded, Reloc};
use link_spaces::moved_word;
use std::alloc::{AllocError, Global};

/// The slots of objects, in load order, each object's in the order of the file.
///
/// # Errors
///
/// Want of memory.
pub fn slots_of(alloc: Global, objects: &[Loaded]) -> Result<SlotWords, AllocError>
    requires { (o : loaded) → Contains objects.now o → Accepted o.object }
    ensures { IfOk result (λ slots. slots ≡ flat_map slots_of objects.now) }
{
    let mut slots = SlotWords::new(alloc);
    for object in objects {
        push_slots(object, &mut slots)?;
    }
    Ok(slots)
}

/// Puts those of an object at the end.
fn push_slots(object: &Loaded, slots: &mut SlotWords) -> Result<(), AllocError>
    requires { Accepted object.now.object }
    ensures { OnOk result (slots.new ≡ slots.old ++ slots_of object.now) }
{
    for slot in object.object.plt_relocs.as_slice() {
        slots.push(slot_word(object, slot))?;
    }
    Ok(())
}

/// Where a slot stands, and what it holds until it is bound.
#[tactic(auto, unfolding(seg_image::specs::Pages::guest_address))]
fn slot_word(object: &Loaded, slot: &Reloc) -> SlotWord
    requires accepted { Accepted object.now.object }
    requires low { slot.now.place < 2 ^ 63 }
    ensures { result ≡ slot_word object.now slot.now }
{
    SlotWord {
        address: object.base.wrapping_add(slot.place),
        lazy: moved_word(&object.object, object.base, slot.place),
    }
}
