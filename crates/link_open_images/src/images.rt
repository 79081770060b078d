//! Images of new objects.

ghost use Rattle.std.specs.Prelude.{◌≡◌, ◌<◌, ℕ, Some, length, IfOk};
ghost use Rattle.std.specs.List.{slice_get};
ghost use Rattle.ld_base.specs.declared.linking.Loaded.{Loaded as loaded};
ghost use Rattle.history_calls.specs.LoadChoices.Choices.{choices_of};
ghost use Rattle.link_open_images.specs.ObjectBindings.Bindings.{AreMade, bindings_in, copies_from, none_copied};
ghost use Rattle.link_open_images.specs.Relocated.{AreBehind, AreChoices, AreRelocated, IsRelocated, MayRelocate, MayRelocateAll};
ghost use Rattle.scope_rule.specs.Seen.{seen};

use crate::object_bindings::{Made, bindings_of};
use history_event::Choices;
use ld_base::{Choice, Loaded};
use relocator::{Bindings, TlsPlaces, relocate};
use scope_rule::{IndexedView, View};
use seg_image::{Image, Images, make_image};
use std::alloc::{AllocError, Global};

/// The images of new objects, in load order, relocated by what their relocations choose, a list of
/// choices an object.
///
/// # Errors
///
/// Want of memory.
pub fn images_of(
    alloc: Global,
    view: &View,
    now: bool,
    objects: &[Loaded],
    choices: &[Choices],
    places: &TlsPlaces,
) -> Result<Images, AllocError>
    requires choices { AreChoices (seen view.now) now objects.now choices.now }
    requires may { MayRelocateAll (seen view.now) now places.now objects.now }
    ensures { IfOk result (AreRelocated (seen view.now) now places.now objects.now) }
{
    if objects.is_empty() {
        return Ok(Images::from(Vec::new(alloc)));
    }
    let indexed = IndexedView::of(alloc, view)?;
    images_over(alloc, &indexed, now, objects, choices, places)
}

/// The same of one object at least.
fn images_over(
    alloc: Global,
    indexed: &IndexedView,
    now: bool,
    objects: &[Loaded],
    choices: &[Choices],
    places: &TlsPlaces,
) -> Result<Images, AllocError>
    requires some { 0 < length objects.now }
    requires choices { AreChoices indexed.now now objects.now choices.now }
    requires may { MayRelocateAll indexed.now now places.now objects.now }
    ensures { IfOk result (AreRelocated indexed.now now places.now objects.now) }
{
    images_behind(
        alloc,
        indexed,
        now,
        &objects[0],
        &objects[1..],
        choices[0].as_slice(),
        &choices[1..],
        places,
    )
}

/// The image of the first object, whose copies take the bytes of the others, and then theirs.
fn images_behind(
    alloc: Global,
    indexed: &IndexedView,
    now: bool,
    first: &Loaded,
    rest: &[Loaded],
    choice: &[Choice],
    choices: &[Choices],
    places: &TlsPlaces,
) -> Result<Images, AllocError>
    requires choice { choice.now ≡ choices_of indexed.now now first.now }
    requires choices { AreChoices indexed.now now rest.now choices.now }
    requires first { MayRelocate first.now (bindings_in (copies_from indexed.now now places.now rest.now) indexed.now now first.now) places.now }
    requires rest { (k : ℕ) (o : loaded) → slice_get rest.now k ≡ Some o → MayRelocate o (bindings_in none_copied indexed.now now o) places.now }
    ensures { IfOk result (AreBehind indexed.now now places.now first.now rest.now) }
{
    let mut libraries = library_images(alloc, indexed, now, rest, choices, places)?;
    let made = Made {
        objects: rest,
        images: libraries.as_slice(),
        places,
    };
    let image = relocated(alloc, indexed, &made, now, first, choice)?;
    let mut images = Vec::new(alloc);
    images.push(image)?;
    images.append(&mut libraries)?;
    Ok(Images::from(images))
}

/// The images of objects without copies.
fn library_images(
    alloc: Global,
    indexed: &IndexedView,
    now: bool,
    objects: &[Loaded],
    choices: &[Choices],
    places: &TlsPlaces,
) -> Result<Vec<Image>, AllocError>
    requires choices { AreChoices indexed.now now objects.now choices.now }
    requires may { (k : ℕ) (o : loaded) → slice_get objects.now k ≡ Some o → MayRelocate o (bindings_in none_copied indexed.now now o) places.now }
    ensures { IfOk result (λ images. AreMade indexed.now now places.now objects.now images.items) }
{
    let mut images = Vec::new(alloc);
    for (index, object) in objects.iter().enumerate() {
        images.push(library_image(
            alloc,
            indexed,
            now,
            object,
            choices[index].as_slice(),
            places,
        )?)?;
    }
    Ok(images)
}

/// The image of an object without copies.
fn library_image(
    alloc: Global,
    indexed: &IndexedView,
    now: bool,
    object: &Loaded,
    choices: &[Choice],
    places: &TlsPlaces,
) -> Result<Image, AllocError>
    requires choices { choices.now ≡ choices_of indexed.now now object.now }
    requires may { MayRelocate object.now (bindings_in none_copied indexed.now now object.now) places.now }
    ensures { IfOk result (IsRelocated object.now (bindings_in none_copied indexed.now now object.now) places.now) }
{
    let none = Made {
        objects: &[],
        images: &[],
        places,
    };
    relocated(alloc, indexed, &none, now, object, choices)
}

/// The image of an object, relocated by what its relocations choose.
fn relocated(
    alloc: Global,
    indexed: &IndexedView,
    made: &Made,
    now: bool,
    object: &Loaded,
    choices: &[Choice],
) -> Result<Image, AllocError>
    requires choices { choices.now ≡ choices_of indexed.now now object.now }
    requires made { AreMade indexed.now now made.now.places.now made.now.objects.now made.now.images.now }
    requires may { MayRelocate object.now
        (bindings_in (copies_from indexed.now now made.now.places.now made.now.objects.now) indexed.now now object.now) made.now.places.now }
    ensures { IfOk result (IsRelocated object.now
        (bindings_in (copies_from indexed.now now made.now.places.now made.now.objects.now) indexed.now now object.now) made.now.places.now) }
{
    let bindings = bindings_of(alloc, indexed, made, now, object, choices)?;
    image_of(alloc, object, &bindings, made.places)
}

/// The image of an object, relocated by these bindings.
fn image_of(
    alloc: Global,
    object: &Loaded,
    bindings: &Bindings,
    places: &TlsPlaces,
) -> Result<Image, AllocError>
    requires { MayRelocate object.now bindings.now places.now }
    ensures { IfOk result (IsRelocated object.now bindings.now places.now) }
{
    let mut image = make_image(alloc, &object.object, object.base)?;
    // No offset is missing, so nothing is refused.
    let _ = relocate(
        &mut image,
        &object.object,
        object.base,
        object.serial,
        bindings,
        places,
    );
    Ok(image)
}
