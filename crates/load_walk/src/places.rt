//! Where objects stand, by their paths and by the names that they give themselves.

ghost use Rattle.std.specs.Prelude.{◌≡◌, OnOk};
ghost use Rattle.scope_rule.specs.Finding.{is_named};
ghost use Rattle.load_walk.specs.Lookup.{TakePlace, place_of};
ghost use Rattle.load_walk.specs.Places.{NotesObject, HasNoPlaces};

use crate::lookup::NamePlaces;
use ld_base::Object;
use std::alloc::{AllocError, Global};

/// The first place of each path of some objects, and of each name that one gives itself.
#[derive(Drop)]
pub struct ObjectPlaces {
    paths: NamePlaces,
    sonames: NamePlaces,
}

/// Notes the place of the name that an object gives itself, unless it has an earlier one.
fn add_soname(
    alloc: Global,
    sonames: &mut NamePlaces,
    object: &Object,
    place: usize,
) -> Result<(), AllocError>
    ensures { OnOk result (TakePlace sonames.old sonames.new (λ name. is_named name object.now) place) }
{
    match &object.soname {
        Some(soname) => sonames.add(alloc, soname.as_bytes(), place),
        None => Ok(()),
    }
}

impl ObjectPlaces {
    /// No object yet.
    pub fn new(alloc: Global) -> Self
        ensures { HasNoPlaces result }
    {
        ObjectPlaces {
            paths: NamePlaces::new(alloc),
            sonames: NamePlaces::new(alloc),
        }
    }

    /// Notes the place of an object with a path.
    pub fn add(
        &mut self,
        alloc: Global,
        path: &[u8],
        object: &Object,
        place: usize,
    ) -> Result<(), AllocError>
        ensures { OnOk result (NotesObject self.old self.new path.now object.now place) }
    {
        self.paths.add(alloc, path, place)?;
        add_soname(alloc, &mut self.sonames, object, place)?;
        Ok(())
    }

    /// The place of the first object with this path.
    pub fn at_path(&self, path: &[u8]) -> Option<usize>
        ensures { result ≡ place_of self.now.paths.firsts.entries path.now }
    {
        self.paths.place(path)
    }

    /// The place of the first object with this name of its own.
    pub fn at_soname(&self, name: &[u8]) -> Option<usize>
        ensures { result ≡ place_of self.now.sonames.firsts.entries name.now }
    {
        self.sonames.place(name)
    }
}
