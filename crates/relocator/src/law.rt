//! The definitions on an object whose words were worked out by hand, and what slots hold.

ghost use Rattle.std.specs.Prelude.{◌≡◌, ℕ, ◌^◌, ◌<◌, List, map, None, Some, IsTrue};
ghost use Rattle.std.specs.List.{slice_get};
ghost use Rattle.ld_base.specs.declared.object.Object.{Object};
ghost use Rattle.ld_base.specs.declared.object.Reloc.{Reloc};
ghost use Rattle.seg_image.specs.Accepted.{Accepted};
ghost use Rattle.seg_image.specs.Pages.{IsPlaced};
ghost use Rattle.seg_image.specs.Roles.{role_of};
ghost use Rattle.relocator.specs.declared.binding.Binding.{Binding};
ghost use Rattle.relocator.specs.declared.binding.ModulePlace.{ModulePlace};
ghost use Rattle.relocator.specs.Bindings.{AreBindings, AreCopied, slots_of};
ghost use Rattle.relocator.specs.Example.{example, example_base, example_bindings, example_places, example_roles, example_serial, example_words};
ghost use Rattle.relocator.specs.Relocated.{image_word, slot_word};
ghost use Rattle.relocator.specs.Storage.{first_without_offset};

/// Every type of relocation on one object: its words, its roles, that nothing refuses it, and that it
/// is what the calls ask for.
pub fn worked_example()
    ensures words { map (λ row. image_word example example_base example_serial example_bindings example_places row.0) example_words
        ≡ map (λ row. row.1) example_words }
    ensures roles { map (λ row. role_of example row.0) example_roles ≡ map (λ row. row.1) example_roles }
    ensures unrefused { first_without_offset example example_serial example_bindings example_places ≡ None }
    ensures accepted { Accepted example }
    ensures placed { IsPlaced example example_base }
    ensures bound { AreBindings example example_bindings }
{}

/// The word at a slot's place is what the slot is bound to, or the file's word, moved: neither another
/// relocation nor a copy nor one of the linker's words touches it.
pub fn slots_hold()
    ensures { (o : Object) (base serial : ℕ) (bindings : List Binding) (places : List ModulePlace) (k : ℕ) (r : Reloc) (b : Binding) →
        Accepted o → AreCopied o bindings → slice_get (slots_of o bindings) k ≡ Some (r, b) → (IsTrue b.bound → b.value < 2 ^ 64) →
        image_word o base serial bindings places r.place ≡ slot_word o base r b }
{}
