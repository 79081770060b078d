//! Whether the versions that new objects need are there.

ghost use Rattle.std.specs.Prelude.{◌≡◌, IfOk};
ghost use Rattle.std.specs.Option.{option_copied};
ghost use Rattle.scope_rule.specs.Needed.{is_weak_need, provider, lacks_version, first_lack, missing_version};
ghost use Rattle.load_walk.specs.Lookup.{ArePlacesOf};

use crate::defined_versions::DefinedVersions;
use crate::lookup::NamePlaces;
use ld_base::{DlFault, Loaded, Name, Serial, Verneed};
use scope_rule::IndexedView;
use std::alloc::{AllocError, Global};

/// Whether a needed version may be missing (VER_FLG_WEAK).
fn is_weak_need(need: &Verneed) -> bool
    ensures { result ≡ is_weak_need need.now }
{
    need.flags / 2 % 2 == 1
}

/// The object that the first of an object's needed names that is the file found.
fn provider(object: &Loaded, places: &NamePlaces, file: &[u8]) -> Option<Serial>
    requires { ArePlacesOf object.now.object.needed places.now }
    ensures { result ≡ provider object.now file.now }
{
    match places.place(file) {
        Some(place) => {
            let found = object.found.as_slice();
            let first = found.len().saturating_sub(object.object.needed.len());
            found.get(first + place).copied()
        }
        None => None,
    }
}

/// Whether a version that an object needs isn't there.
fn lacks_version(
    alloc: Global,
    defined: &mut DefinedVersions,
    object: &Loaded,
    places: &NamePlaces,
    need: &Verneed,
) -> Result<bool, AllocError>
    requires { ArePlacesOf object.now.object.needed places.now }
    ensures answer { IfOk result (λ lacks. lacks ≡ lacks_version defined.old object.now need.now) }
    ensures same { defined.new ≡ defined.old }
{
    if is_weak_need(need) {
        return Ok(false);
    }
    let Some(serial) = provider(object, places, need.file.as_bytes()) else {
        return Ok(false);
    };
    Ok(!defined.defines(alloc, serial, need.name.as_bytes())?)
}

/// The first version that an object needs and that isn't there, by the places of its names.
fn lack_among<'a>(
    alloc: Global,
    defined: &mut DefinedVersions,
    object: &'a Loaded,
    places: &NamePlaces,
) -> Result<Option<&'a Verneed>, AllocError>
    requires { ArePlacesOf object.now.object.needed places.now }
    ensures lack { IfOk result (λ lack. option_copied lack ≡ first_lack defined.old object.now) }
    ensures same { defined.new ≡ defined.old }
{
    for need in object.object.verneeds.as_slice() {
        if lacks_version(alloc, defined, object, places, need)? {
            return Ok(Some(need));
        }
    }
    Ok(None)
}

/// The first version that an object needs and that isn't there.
fn first_lack<'a>(
    alloc: Global,
    defined: &mut DefinedVersions,
    object: &'a Loaded,
) -> Result<Option<&'a Verneed>, AllocError>
    ensures lack { IfOk result (λ lack. option_copied lack ≡ first_lack defined.old object.now) }
    ensures same { defined.new ≡ defined.old }
{
    let places = NamePlaces::of(alloc, object.object.needed.as_slice())?;
    lack_among(alloc, defined, object, &places)
}

/// The refusal of an object that needs a version that isn't there.
fn version_fault(alloc: Global, object: &Loaded, need: &Verneed) -> Result<DlFault, AllocError>
    ensures { IfOk result (λ fault. fault ≡ DlFault.MissingVersion object.now.path need.now.file need.now.name) }
{
    let path = Name::new(alloc, object.path.as_bytes())?;
    let file = Name::new(alloc, need.file.as_bytes())?;
    let name = Name::new(alloc, need.name.as_bytes())?;
    Ok(DlFault::MissingVersion(path, file, name))
}

/// The first refusal of new objects, in load order, from what is known of the objects of their namespace.
fn first_fault(
    alloc: Global,
    defined: &mut DefinedVersions,
    added: &[Loaded],
) -> Result<Option<DlFault>, AllocError>
    ensures { IfOk result (λ fault. fault ≡ missing_version defined.old added.now) }
{
    for object in added {
        if let Some(need) = first_lack(alloc, defined, object)? {
            return Ok(Some(version_fault(alloc, object, need)?));
        }
    }
    Ok(None)
}

/// The first refusal of new objects, in load order, for a version that isn't there.
pub(crate) fn missing_version(
    alloc: Global,
    indexed: &IndexedView,
    added: &[Loaded],
) -> Result<Option<DlFault>, AllocError>
    ensures { IfOk result (λ fault. fault ≡ missing_version indexed.now.objects added.now) }
{
    let mut defined = DefinedVersions::of(alloc, indexed);
    first_fault(alloc, &mut defined, added)
}
