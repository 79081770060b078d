//! What a load looks up by name: places of objects and of files that were found, and versions of objects.

ghost use Rattle.std.specs.Prelude.{◌≡◌, ◌||◌, ℕ, List, None, true, IfOk, OnOk};
ghost use Rattle.std.specs.Str.{bytes_eq};
ghost use Rattle.scope_rule.specs.Needed.{defines, defines_version};
ghost use Rattle.load_walk.specs.Lookup.{named, place_of, has, ArePlacesOf, TakePlace};

use indexmap::{IndexMap, IndexSet};
use ld_base::{Name, Object, Verdef};
use std::alloc::{AllocError, Global};

/// The first place of each name of a list.
#[derive(Drop)]
pub struct NamePlaces {
    firsts: IndexMap<Vec<u8>, usize>,
}

impl NamePlaces {
    /// No name yet.
    pub fn new(alloc: Global) -> Self
        ensures { (name : List ℕ) → place_of result.firsts.entries name ≡ None }
    {
        NamePlaces {
            firsts: IndexMap::new(alloc),
        }
    }

    /// Those of the names of a list.
    pub fn of(alloc: Global, names: &[Name]) -> Result<Self, AllocError>
        ensures { IfOk result (λ places. ArePlacesOf names.now places) }
    {
        let mut places = NamePlaces::new(alloc);
        for (place, name) in names.iter().enumerate() {
            places.add(alloc, name.as_bytes(), place)?;
        }
        Ok(places)
    }

    /// Notes a name's place, unless it has an earlier one.
    pub fn add(&mut self, alloc: Global, name: &[u8], place: usize) -> Result<(), AllocError>
        ensures { OnOk result (TakePlace self.old self.new (λ other. bytes_eq name.now other) place) }
    {
        if !self.firsts.contains_key(name) {
            let name = Vec::from_slice(alloc, name)?;
            self.firsts.insert(name, place)?;
        }
        Ok(())
    }

    /// The place of a name, if it is one of them.
    pub fn place(&self, name: &[u8]) -> Option<usize>
        ensures { result ≡ place_of self.now.firsts.entries name.now }
    {
        self.firsts.get(name).copied()
    }
}

/// The versions that an object defines.
#[derive(Drop)]
pub struct Defined {
    every: bool,
    names: IndexSet<Vec<u8>>,
}

impl Defined {
    /// Every version.
    pub fn every(alloc: Global) -> Self
        ensures { (version : List ℕ) → has result version ≡ true }
    {
        Defined {
            every: true,
            names: IndexSet::new(alloc),
        }
    }

    /// Those that an object defines. One without definitions of versions defines every one.
    pub fn of(alloc: Global, object: &Object) -> Result<Self, AllocError>
        ensures { IfOk result (λ defined. (version : List ℕ) → has defined version ≡ defines_version object.now version) }
    {
        let mut names = IndexSet::new(alloc);
        for verdef in object.verdefs.as_slice() {
            add_version(alloc, &mut names, verdef)?;
        }
        let every = object.verdefs.is_empty();
        Ok(Defined { every, names })
    }

    /// Whether a version is one of them.
    pub fn has(&self, version: &[u8]) -> bool
        ensures { result ≡ has self.now version.now }
    {
        self.every || self.names.contains(version)
    }
}

/// Adds the version that an entry defines, unless it's that of the base.
fn add_version(
    alloc: Global,
    names: &mut IndexSet<Vec<u8>>,
    verdef: &Verdef,
) -> Result<(), AllocError>
    ensures { OnOk result ((version : List ℕ) → named names.new.keys version ≡ (named names.old.keys version || defines version verdef.now)) }
{
    if !verdef.is_base() {
        let name = Vec::from_slice(alloc, verdef.name.as_bytes())?;
        names.insert(name)?;
    }
    Ok(())
}
