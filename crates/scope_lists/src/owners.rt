//! The objects whose scopes are asked for.

ghost use Rattle.std.specs.Prelude.{◌≡◌, ◌||◌};
ghost use Rattle.std.specs.List.{list_all, list_any};
ghost use Rattle.scope_rule.specs.Breadth.{has};
ghost use Rattle.scope_rule.specs.Seen.{seen};
ghost use Rattle.scope_lists.specs.Owners.{leads_elsewhere};

use indexmap::IndexSet;
use ld_base::{Loaded, Serial};
use scope_rule::{View, object_at};
use std::alloc::{AllocError, Global};

/// Their serials.
#[derive(Drop)]
pub(crate) struct Owners {
    serials: IndexSet<Serial>,
}

/// Whether one of these is an owner.
fn has_owner(owners: &Owners, serials: &[Serial]) -> bool
    ensures { result ≡ list_any (λ x. has owners.now.serials.keys x) serials.now }
{
    serials.iter().any(|serial| owners.has(*serial))
}

/// Whether an object is an owner itself or found none.
fn leads_elsewhere(owners: &Owners, object: &Loaded) -> bool
    ensures { result ≡ leads_elsewhere owners.now.serials.keys object.now }
{
    owners.has(object.serial) || !has_owner(owners, object.found.as_slice())
}

/// The same of each of these.
fn lead_elsewhere(owners: &Owners, objects: &[Loaded]) -> bool
    ensures { result ≡ list_all (leads_elsewhere owners.now.serials.keys) objects.now }
{
    objects.iter().all(|object| leads_elsewhere(owners, object))
}

/// Whether no object of a namespace but the owners leads to one of them, as no object that was there leads to
/// new ones.
pub(crate) fn stand_apart(owners: &Owners, view: &View) -> bool
    ensures { result ≡ list_all (leads_elsewhere owners.now.serials.keys) (seen view.now).objects }
{
    lead_elsewhere(owners, view.objects) && lead_elsewhere(owners, view.added)
}

impl Owners {
    ghost use Rattle.std.specs.Prelude.{◌≡◌, ◌<◌, ◌≤◌, ℕ, Some, slice_get, IfOk, OnOk};
    ghost use Rattle.ld_base.specs.declared.linking.Loaded.{Loaded as LoadedObject};
    ghost use Rattle.scope_rule.specs.Breadth.{has};
    ghost use Rattle.scope_rule.specs.Seen.{seen};
    ghost use Rattle.scope_lists.specs.Owners.{IsOwner, OwnsMore};

    fn new(alloc: Global) -> Self {
        Owners {
            serials: IndexSet::new(alloc),
        }
    }

    /// The object at a place in load order, if there is one.
    pub(crate) fn at(alloc: Global, view: &View, place: usize) -> Result<Self, AllocError>
        ensures { IfOk result (λ owners. (o : LoadedObject) → slice_get (seen view.now).objects place ≡ Some o → IsOwner owners o.serial) }
    {
        let mut owners = Owners::new(alloc);
        owners.add_at(view, place)?;
        Ok(owners)
    }

    /// The objects from one place to another.
    pub(crate) fn between(
        alloc: Global,
        view: &View,
        first: usize,
        end: usize,
    ) -> Result<Self, AllocError>
        ensures { IfOk result (λ owners. (place : ℕ) (o : LoadedObject) → first ≤ place → place < end
            → slice_get (seen view.now).objects place ≡ Some o → IsOwner owners o.serial) }
    {
        let mut owners = Owners::new(alloc);
        for place in first..end {
            owners.add_at(view, place)?;
        }
        Ok(owners)
    }

    /// The object at a place is another owner.
    fn add_at(&mut self, view: &View, place: usize) -> Result<(), AllocError>
        ensures more { OwnsMore self.old self.new }
        ensures one { OnOk result ((o : LoadedObject) → slice_get (seen view.now).objects place ≡ Some o → IsOwner self.new o.serial) }
    {
        match object_at(view, place) {
            Some(object) => self.add(object.serial),
            None => Ok(()),
        }
    }

    /// The object with a serial is another owner.
    fn add(&mut self, serial: Serial) -> Result<(), AllocError>
        ensures more { OwnsMore self.old self.new }
        ensures one { OnOk result (IsOwner self.new serial) }
    {
        self.serials.insert(serial)?;
        Ok(())
    }

    /// Whether the object with a serial is one.
    pub(crate) fn has(&self, serial: Serial) -> bool
        ensures { result ≡ has self.now.serials.keys serial }
    {
        self.serials.contains(&serial)
    }
}
