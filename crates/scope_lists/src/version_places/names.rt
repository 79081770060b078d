//! Where the names of versions stand.

ghost use Rattle.std.specs.Prelude.{◌≡◌, None, IfSome, option_map, slice_get, slice_index_or};
ghost use Rattle.std.specs.Option.{option_copied};
ghost use Rattle.ld_base.specs.Version.{version_name};
ghost use Rattle.scope_lists.specs.VersionPlaces.Noted.{places_in};
ghost use Rattle.scope_lists.specs.VersionPlaces.Places.{name_in, places_of};

use crate::version_places::noting::{Noted, indexes_of};
use ld_base::{Name, Object};
use std::alloc::{AllocError, Global};
use std::marker::Model;

/// The entry of an object that names the version of an index.
#[derive(Clone, Copy, PartialEq, Eq)]
pub enum VersionPlace {
    /// The version that is defined at this place.
    Defined(usize),
    /// The version that is needed at this place.
    Needed(usize),
}

/// Where the names of an object's versions stand. Contracts see it as the places by the indexes.
#[derive(Drop)]
pub struct VersionNames {
    noted: Noted,
    /// One more than the greatest index.
    past: usize,
}

impl Model for VersionNames {
    ghost use Rattle.std.specs.Prelude.{List, Option};
    ghost use Rattle.scope_lists.specs.VersionPlaces.Noted.{places_in};
    ghost use Rattle.scope_lists.specs.declared.version_places.names.VersionPlace.{VersionPlace};

    ghost Value = { List (Option VersionPlace) };

    ghost view = { λ n. places_in n.noted n.past };
}

/// The place of an index, if it is less than that and has one.
fn place_at(noted: &Noted, past: usize, index: u16) -> Option<VersionPlace>
    ensures { result ≡ slice_index_or (places_in noted.now past) index None }
{
    if usize::from(index) < past {
        noted.get(index)
    } else {
        None
    }
}

/// The name of the version that is defined at a place.
fn defined_name(object: &Object, number: usize) -> Option<&Name>
    ensures { option_copied result ≡ option_map (λ d. d.name) (slice_get object.now.verdefs number) }
{
    let verdef = object.verdefs.as_slice().get(number)?;
    Some(&verdef.name)
}

/// The name of the version that is needed at a place.
fn needed_name(object: &Object, number: usize) -> Option<&Name>
    ensures { option_copied result ≡ option_map (λ n. n.name) (slice_get object.now.verneeds number) }
{
    let verneed = object.verneeds.as_slice().get(number)?;
    Some(&verneed.name)
}

/// The name at a place.
fn name_in(object: &Object, place: Option<VersionPlace>) -> Option<&Name>
    ensures { option_copied result ≡ name_in object.now place }
{
    match place {
        Some(VersionPlace::Defined(number)) => defined_name(object, number),
        Some(VersionPlace::Needed(number)) => needed_name(object, number),
        None => None,
    }
}

impl VersionNames {
    ghost use Rattle.std.specs.Prelude.{◌≡◌, IfOk};
    ghost use Rattle.std.specs.Option.{option_copied};
    ghost use Rattle.ld_base.specs.Version.{version_name};
    ghost use Rattle.scope_lists.specs.VersionPlaces.Places.{places_of};

    /// Those of an object.
    ///
    /// # Errors
    ///
    /// Want of memory.
    pub fn of(alloc: Global, object: &Object) -> Result<Self, AllocError>
        ensures { IfOk result (λ names. names ≡ places_of object.now) }
    {
        let noted = Noted::of(alloc, object)?;
        let past = indexes_of(object);
        Ok(VersionNames { noted, past })
    }

    /// The name of a version's index in the object whose these are, if it has one: what
    /// `Object::version_name` gives.
    pub fn get<'a>(&self, object: &'a Object, index: u16) -> Option<&'a Name>
        requires { self.now ≡ places_of object.now }
        ensures { option_copied result ≡ version_name object.now index }
    {
        name_in(object, place_at(&self.noted, self.past, index))
    }
}

/// The name of a version's index in an object, in one step where the object's names are known.
pub fn version_name<'a>(
    object: &'a Object,
    names: Option<&VersionNames>,
    index: u16,
) -> Option<&'a Name>
    requires { IfSome names (λ n. n.now ≡ places_of object.now) }
    ensures { option_copied result ≡ version_name object.now index }
{
    match names {
        Some(names) => names.get(object, index),
        None => object.version_name(index),
    }
}
