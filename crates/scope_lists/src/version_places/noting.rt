//! Noting where versions stand.

ghost use Rattle.std.specs.Prelude.{◌≡◌, ◌==◌, ◌&&◌, not, ℕ, None, Some, map, position, option_map, if◌then◌else◌, IfOk, OnOk};
ghost use Rattle.std.specs.Option.{option_or};
ghost use Rattle.ld_base.specs.Version.{is_base};
ghost use Rattle.scope_lists.specs.VersionPlaces.Noted.{noted_at};
ghost use Rattle.scope_lists.specs.VersionPlaces.Places.{indexes_of, past, place_of};
ghost use Rattle.scope_lists.specs.declared.version_places.names.VersionPlace.TheVariants.{Defined, Needed};

use crate::version_places::names::VersionPlace;
use ld_base::{Object, Verdef, Verneed};
use std::alloc::{AllocError, Global};
use std::collections::HashMap;

/// Where versions stand, by their indexes.
#[derive(Drop)]
pub(crate) struct Noted {
    by_index: HashMap<u16, VersionPlace>,
}

/// One more than the greatest index of the versions that are defined.
fn past_defined(verdefs: &[Verdef]) -> usize
    ensures { result ≡ past (map (λ d. d.index) verdefs.now) }
{
    verdefs
        .iter()
        .fold(0, |past, verdef| past.max(usize::from(verdef.index) + 1))
}

/// One more than the greatest index of the versions that are needed.
fn past_needed(verneeds: &[Verneed]) -> usize
    ensures { result ≡ past (map (λ n. n.index) verneeds.now) }
{
    verneeds.iter().fold(0, |past, verneed| past.max(usize::from(verneed.index) + 1))
}

/// One more than the greatest index of an object's versions.
pub(crate) fn indexes_of(object: &Object) -> usize
    ensures { result ≡ indexes_of object.now }
{
    past_defined(object.verdefs.as_slice()).max(past_needed(object.verneeds.as_slice()))
}

impl Noted {
    ghost use Rattle.std.specs.Prelude.{◌≡◌, ◌==◌, ◌&&◌, not, ℕ, None, Some, position, option_map, if◌then◌else◌, IfOk, OnOk};
    ghost use Rattle.std.specs.Option.{option_or};
    ghost use Rattle.ld_base.specs.Version.{is_base};
    ghost use Rattle.scope_lists.specs.VersionPlaces.Noted.{noted_at};
    ghost use Rattle.scope_lists.specs.VersionPlaces.Places.{place_of};
    ghost use Rattle.scope_lists.specs.declared.version_places.names.VersionPlace.TheVariants.{Defined, Needed};

    /// None yet.
    fn new(alloc: Global) -> Self
        ensures { (k : ℕ) → noted_at result k ≡ None }
    {
        Noted {
            by_index: HashMap::new(alloc),
        }
    }

    /// Those of all versions of an object: those that it defines count before those that it needs.
    pub(crate) fn of(alloc: Global, object: &Object) -> Result<Self, AllocError>
        ensures { IfOk result (λ noted. (k : ℕ) → noted_at noted k ≡ place_of object.now k) }
    {
        let mut noted = Noted::new(alloc);
        noted.note_defined(object.verdefs.as_slice())?;
        noted.note_needed(object.verneeds.as_slice())?;
        Ok(noted)
    }

    /// The place of an index, if it has one.
    pub(crate) fn get(&self, index: u16) -> Option<VersionPlace>
        ensures { result ≡ noted_at self.now index }
    {
        self.by_index.get(&index).copied()
    }

    /// Notes the place of an index, unless it has an earlier one.
    fn note(&mut self, index: u16, place: VersionPlace) -> Result<(), AllocError>
        ensures { OnOk result ((k : ℕ) → noted_at self.new k ≡ option_or (noted_at self.old k) (if index == k then Some place else None)) }
    {
        if !self.by_index.contains_key(&index) {
            self.by_index.insert(index, place)?;
        }
        Ok(())
    }

    /// Notes a version that is defined. That of the object itself has no name.
    fn note_verdef(&mut self, verdef: &Verdef, number: usize) -> Result<(), AllocError>
        ensures { OnOk result ((k : ℕ) → noted_at self.new k
            ≡ option_or (noted_at self.old k) (if verdef.now.index == k && not (is_base verdef.now) then Some (Defined number) else None)) }
    {
        if verdef.is_base() {
            return Ok(());
        }
        self.note(verdef.index, VersionPlace::Defined(number))
    }

    /// Notes the versions that are defined, the first of each index, behind what is noted.
    fn note_defined(&mut self, verdefs: &[Verdef]) -> Result<(), AllocError>
        ensures { OnOk result ((k : ℕ) → noted_at self.new k
            ≡ option_or (noted_at self.old k) (option_map Defined (position (λ d. d.index == k && not (is_base d)) verdefs.now))) }
    {
        for (number, verdef) in verdefs.iter().enumerate() {
            self.note_verdef(verdef, number)?;
        }
        Ok(())
    }

    /// Notes the versions that are needed, the first of each index, behind what is noted.
    fn note_needed(&mut self, verneeds: &[Verneed]) -> Result<(), AllocError>
        ensures { OnOk result ((k : ℕ) → noted_at self.new k
            ≡ option_or (noted_at self.old k) (option_map Needed (position (λ n. n.index == k) verneeds.now))) }
    {
        for (number, verneed) in verneeds.iter().enumerate() {
            self.note(verneed.index, VersionPlace::Needed(number))?;
        }
        Ok(())
    }
}
