//! The bindings of an object.

ghost use Rattle.std.specs.Prelude.{◌≡◌, ℕ, ◌≤◌, Bool, ◌++◌, length, map, Some, IfOk, OnOk};
ghost use Rattle.std.specs.List.{range_with_len, slice_get};
ghost use Rattle.ld_base.specs.declared.object.Reloc.{Reloc as Relocation};
ghost use Rattle.history_state.specs.Bound.{binds_now, no_binding};
ghost use Rattle.history_calls.specs.LoadChoices.Choices.{choices_of};
ghost use Rattle.link_open_images.specs.ObjectBindings.Bindings.{AreMade, CanRead, binding_in, copied_bytes, bindings_in, copied_by, copies_from, rela_binding};
ghost use Rattle.relocator.specs.Bindings.{chosen};
ghost use Rattle.scope_rule.specs.Relocation.{choice_at};

use crate::object_bindings::copying::{Made, copied_from, copied_size};
use crate::object_bindings::definitions::{size_of, value_of};
use ld_base::{Bytes, Choice, Loaded, Object, Reloc, Serial};
use relocator::{Binding, Bindings};
use scope_rule::{IndexedView, is_copy};
use std::alloc::{AllocError, Global};

/// The bindings of an object: those of DT_RELA, and then those of its slots. `choices` is what its
/// relocations choose, one choice a relocation; that of a slot counts where `now` says that slots are bound
/// at load or the object asks for it.
///
/// # Errors
///
/// Want of memory.
pub(crate) fn bindings_of(
    alloc: Global,
    indexed: &IndexedView,
    made: &Made,
    now: bool,
    owner: &Loaded,
    choices: &[Choice],
) -> Result<Bindings, AllocError>
    requires choices { choices.now ≡ choices_of indexed.now now owner.now }
    requires made { AreMade indexed.now now made.now.places.now made.now.objects.now made.now.images.now }
    ensures { IfOk result (λ bindings. bindings
        ≡ bindings_in (copies_from indexed.now now made.now.places.now made.now.objects.now) indexed.now now owner.now) }
{
    let mut bindings = Bindings::new(alloc);
    push_relas(alloc, indexed, made, owner, choices, &mut bindings)?;
    if binds_now(now, &owner.object) {
        let slots = &choices[owner.object.relocs.len()..];
        push_bound(alloc, indexed, owner, slots, &mut bindings)?;
    } else {
        push_lazy(alloc, owner.object.plt_relocs.len(), &mut bindings)?;
    }
    Ok(bindings)
}

/// Whether an object's slots are bound when it is loaded.
fn binds_now(now: bool, object: &Object) -> bool
    ensures { result ≡ binds_now now object.now }
{
    now || object.flags.bind_now
}

/// Puts the bindings of DT_RELA at the end.
fn push_relas(
    alloc: Global,
    indexed: &IndexedView,
    made: &Made,
    owner: &Loaded,
    choices: &[Choice],
    bindings: &mut Bindings,
) -> Result<(), AllocError>
    requires count { length owner.now.object.relocs ≤ length choices.now }
    requires choices { (k : ℕ) (r : Relocation) → slice_get owner.now.object.relocs k ≡ Some r
        → slice_get choices.now k ≡ Some (choice_at indexed.now owner.now r) }
    requires read { CanRead made.now.objects.now made.now.images.now }
    ensures { OnOk result ((now : Bool) → AreMade indexed.now now made.now.places.now made.now.objects.now made.now.images.now → bindings.new ≡ bindings.old
        ++ map (rela_binding (copies_from indexed.now now made.now.places.now made.now.objects.now) indexed.now owner.now) owner.now.object.relocs) }
{
    for (index, reloc) in owner.object.relocs.as_slice().iter().enumerate() {
        bindings.push(rela_binding(alloc, indexed, made, &owner.object, reloc, &choices[index])?)?;
    }
    Ok(())
}

/// Puts the bindings of slots at the end that are bound to these choices.
fn push_bound(
    alloc: Global,
    indexed: &IndexedView,
    owner: &Loaded,
    choices: &[Choice],
    bindings: &mut Bindings,
) -> Result<(), AllocError>
    requires choices { choices.now ≡ map (choice_at indexed.now owner.now) owner.now.object.plt_relocs }
    ensures { OnOk result (bindings.new ≡ bindings.old
        ++ map (λ r. binding_in indexed.now r (choice_at indexed.now owner.now r)) owner.now.object.plt_relocs) }
{
    for (index, slot) in owner.object.plt_relocs.as_slice().iter().enumerate() {
        bindings.push(binding_of(indexed, slot, &choices[index], Bytes::new(alloc)))?;
    }
    Ok(())
}

/// Puts so many bindings of slots at the end that stay lazy.
fn push_lazy(alloc: Global, count: usize, bindings: &mut Bindings) -> Result<(), AllocError>
    ensures { OnOk result (bindings.new ≡ bindings.old ++ map (λ k. no_binding) (range_with_len 0 count)) }
{
    for _ in 0..count {
        bindings.push(Binding {
            bound: false,
            choice: Choice::Missing,
            value: 0,
            size: 0,
            object: None,
            copied: Bytes::new(alloc),
        })?;
    }
    Ok(())
}

/// The binding of a relocation of DT_RELA.
fn rela_binding(
    alloc: Global,
    indexed: &IndexedView,
    made: &Made,
    owner: &Object,
    reloc: &Reloc,
    choice: &Choice,
) -> Result<Binding, AllocError>
    requires { CanRead made.now.objects.now made.now.images.now }
    ensures { IfOk result (λ binding. (now : Bool) → AreMade indexed.now now made.now.places.now made.now.objects.now made.now.images.now
        → binding ≡ copied_by (copies_from indexed.now now made.now.places.now made.now.objects.now) owner.now reloc.now
        (binding_in indexed.now reloc.now choice.now)) }
{
    let copied = copied_for(alloc, indexed, made, owner, reloc, choice)?;
    Ok(binding_of(indexed, reloc, choice, copied))
}

/// What a relocation copies: nothing unless it is a COPY.
fn copied_for(
    alloc: Global,
    indexed: &IndexedView,
    made: &Made,
    owner: &Object,
    reloc: &Reloc,
    choice: &Choice,
) -> Result<Bytes, AllocError>
    requires { CanRead made.now.objects.now made.now.images.now }
    ensures { IfOk result (λ bytes. (now : Bool) → AreMade indexed.now now made.now.places.now made.now.objects.now made.now.images.now
        → bytes ≡ copied_bytes (copies_from indexed.now now made.now.places.now made.now.objects.now) indexed.now owner.now reloc.now choice.now) }
{
    if !is_copy(reloc) {
        return Ok(Bytes::new(alloc));
    }
    let count = copied_size(owner, reloc, size_of(indexed, choice));
    copied_from(
        alloc,
        made,
        chosen(choice),
        value_of(indexed, reloc, choice),
        count,
    )
}

/// The binding of a relocation that is bound to a choice, and copies these bytes.
fn binding_of(indexed: &IndexedView, reloc: &Reloc, choice: &Choice, copied: Bytes) -> Binding
    ensures { result ≡ record (binding_in indexed.now reloc.now choice.now) { copied = copied } }
{
    Binding {
        bound: true,
        choice: *choice,
        value: value_of(indexed, reloc, choice),
        size: size_of(indexed, choice),
        object: chosen(choice),
        copied,
    }
}

/// The object that a choice is of.
fn chosen(choice: &Choice) -> Option<Serial>
    ensures { result ≡ chosen choice.now }
{
    match *choice {
        Choice::Def(serial, _) => Some(serial),
        Choice::WeakZero | Choice::Missing => None,
    }
}
