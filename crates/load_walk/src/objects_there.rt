//! The objects that are there when a load begins, found by path and by name.

ghost use Rattle.std.specs.Prelude.{◌≡◌, IfOk};
ghost use Rattle.std.specs.List.{slice_get};
ghost use Rattle.std.specs.Option.{option_copied};
ghost use Rattle.scope_rule.specs.Finding.{with_path, with_soname};
ghost use Rattle.load_walk.specs.Places.{OfLoaded};

use crate::finding::{with_path, with_soname};
use crate::places::ObjectPlaces;
use ld_base::Loaded;
use std::alloc::{AllocError, Global};
use std::marker::Model;

/// So many names are found one after another in about the time that noting the places of all objects takes.
const FEW_NAMES: usize = 16;

/// The objects that are there, with their places once a load went through more than a few names: most loads never do.
/// Contracts see the objects.
#[derive(Drop)]
pub(crate) struct ObjectsThere<'a> {
    objects: &'a [Loaded],
    places: Option<ObjectPlaces>,
}

impl<'a> Model for ObjectsThere<'a> {
    ghost use Rattle.std.specs.Prelude.{List, IfSome};
    ghost use Rattle.ld_base.specs.declared.linking.Loaded.{Loaded};
    ghost use Rattle.load_walk.specs.Places.{OfLoaded};

    ghost Value = { List Loaded };

    ghost view = { λ p. p.objects.now };

    ghost invariant = { λ p. IfSome p.places (λ places. OfLoaded p.objects.now places) };
}

/// The places of objects.
fn places_of(alloc: Global, objects: &[Loaded]) -> Result<ObjectPlaces, AllocError>
    ensures { IfOk result (λ places. OfLoaded objects.now places) }
{
    let mut places = ObjectPlaces::new(alloc);
    for (place, object) in objects.iter().enumerate() {
        places.add(alloc, object.path.as_bytes(), &object.object, place)?;
    }
    Ok(places)
}

/// The object at a place.
fn object_at<'a>(objects: &'a [Loaded], place: usize) -> Option<&'a Loaded>
    ensures { option_copied result ≡ slice_get objects.now place }
{
    objects.get(place)
}

/// The first object with this path, by the places of all.
fn placed_path<'a>(objects: &'a [Loaded], places: &ObjectPlaces, path: &[u8]) -> Option<&'a Loaded>
    requires { OfLoaded objects.now places.now }
    ensures { option_copied result ≡ with_path objects.now path.now }
{
    match places.at_path(path) {
        Some(place) => object_at(objects, place),
        None => None,
    }
}

/// The first object with this name of its own, by the places of all.
fn placed_soname<'a>(
    objects: &'a [Loaded],
    places: &ObjectPlaces,
    name: &[u8],
) -> Option<&'a Loaded>
    requires { OfLoaded objects.now places.now }
    ensures { option_copied result ≡ with_soname objects.now name.now }
{
    match places.at_soname(name) {
        Some(place) => object_at(objects, place),
        None => None,
    }
}

impl<'a> ObjectsThere<'a> {
    ghost use Rattle.std.specs.Prelude.{◌≡◌};
    ghost use Rattle.std.specs.Option.{option_copied};
    ghost use Rattle.scope_rule.specs.Finding.{with_path, with_soname};

    /// These objects.
    pub fn new(objects: &'a [Loaded]) -> Self
        ensures { result ≡ objects.now }
    {
        ObjectsThere {
            objects,
            places: None,
        }
    }

    /// Notes the places of the objects, once a load went through more than a few names.
    pub fn note_places(&mut self, alloc: Global, names: usize) -> Result<(), AllocError>
        ensures { self.new ≡ self.old }
    {
        if names > FEW_NAMES && self.places.is_none() {
            self.places = Some(places_of(alloc, self.objects)?);
        }
        Ok(())
    }

    /// The first object with this path.
    pub fn with_path(&self, path: &[u8]) -> Option<&'a Loaded>
        ensures { option_copied result ≡ with_path self.now path.now }
    {
        match &self.places {
            Some(places) => placed_path(self.objects, places, path),
            None => with_path(self.objects, path),
        }
    }

    /// The first object with this name of its own.
    pub fn with_soname(&self, name: &[u8]) -> Option<&'a Loaded>
        ensures { option_copied result ≡ with_soname self.now name.now }
    {
        match &self.places {
            Some(places) => placed_soname(self.objects, places, name),
            None => with_soname(self.objects, name),
        }
    }
}
