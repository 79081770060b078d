//! Search lists.

ghost use Rattle.std.specs.Prelude.{◌≡◌, ◌++◌, map, slice_get, IfOk, OnOk};
ghost use Rattle.std.specs.Option.{option_copied};
ghost use Rattle.scope_rule.specs.Seen.{seen};
ghost use Rattle.scope_lists.specs.VersionPlaces.Places.{places_of};

use crate::kept::KeptScopes;
use crate::links::Links;
use crate::name_order::NameOrder;
use crate::name_orders::{NameOrders, relocations_from};
use crate::owners::Owners;
use crate::scoping::Scopes;
use crate::searched::{ScopeParts, entries};
use crate::version_places::VersionNames;
use ld_base::{Loaded, Serial};
use scope_rule::{Namespace, View};
use std::alloc::{AllocError, Global};

/// What is searched for the references of objects of a namespace, as the namespace stood when it was first
/// asked for. Where an object stands is known of each, where its references are searched of those for which
/// that was asked.
#[derive(Drop)]
pub struct SearchLists {
    links: Links,
    /// Where the names of the versions of each object stand, in load order.
    names: Vec<VersionNames>,
    orders: NameOrders,
    /// How many searches were asked for one by one.
    searches: usize,
    scopes: KeptScopes,
}

/// Puts the names of the versions of these objects at the end.
fn append_names(
    alloc: Global,
    objects: &[Loaded],
    names: &mut Vec<VersionNames>,
) -> Result<(), AllocError>
    ensures { OnOk result (names.new.items ≡ names.old.items ++ map (λ o. places_of o.object) objects.now) }
{
    for object in objects {
        names.push(VersionNames::of(alloc, &object.object)?)?;
    }
    Ok(())
}

/// The names of the versions of each object of what is seen of a namespace.
fn names_of_each(alloc: Global, view: &View) -> Result<Vec<VersionNames>, AllocError>
    ensures { IfOk result (λ names. names.items ≡ map (λ o. places_of o.object) (seen view.now).objects) }
{
    let mut names = Vec::new(alloc);
    append_names(alloc, view.objects, &mut names)?;
    append_names(alloc, view.added, &mut names)?;
    Ok(names)
}

/// The names at a place, if there are any.
fn names_at(names: &[VersionNames], place: usize) -> Option<&VersionNames>
    ensures { option_copied result ≡ slice_get names.now place }
{
    names.get(place)
}

impl SearchLists {
    ghost use Rattle.std.specs.Prelude.{◌≡◌, ℕ, Some, length, IfOk, IfSome, OnOk};
    ghost use Rattle.std.specs.Option.{option_copied};
    ghost use Rattle.std.specs.List.{slice_get};
    ghost use Rattle.ld_base.specs.declared.linking.Loaded.{Loaded as loaded};
    ghost use Rattle.scope_rule.specs.Loading.{object_of};
    ghost use Rattle.scope_rule.specs.Seen.{Seen, seen, seen_in};
    ghost use Rattle.scope_lists.specs.Lists.{AreListed, AreListsOf, ArePartsOf, IsListed, IsListedAt};
    ghost use Rattle.scope_lists.specs.NameOrder.{IsNameOrder};
    ghost use Rattle.scope_lists.specs.Searched.{at_place};
    ghost use Rattle.scope_lists.specs.VersionPlaces.Places.{places_of};

    /// Those of what is seen of a namespace, without any scope.
    ///
    /// # Errors
    ///
    /// Want of memory.
    pub fn new(alloc: Global, view: &View) -> Result<Self, AllocError>
        ensures { IfOk result (AreListsOf (seen view.now)) }
    {
        let links = Links::of(alloc, view)?;
        let names = names_of_each(alloc, view)?;
        let global = entries(alloc, &links.places, view.global)?;
        Ok(SearchLists {
            links,
            names,
            orders: NameOrders::new(alloc),
            searches: 0,
            scopes: KeptScopes::new(alloc, global),
        })
    }

    /// Those of a namespace as it stands, with the scope of each object.
    ///
    /// # Errors
    ///
    /// Want of memory.
    pub fn build(alloc: Global, ns: &Namespace) -> Result<Self, AllocError>
        ensures lists { IfOk result (AreListsOf (seen_in ns.now)) }
        ensures scopes { IfOk result (AreListed (seen_in ns.now) 0) }
    {
        Self::build_in(alloc, &ns.view())
    }

    /// The same as [`SearchLists::build`], of what is seen of a namespace.
    ///
    /// # Errors
    ///
    /// Want of memory.
    pub fn build_in(alloc: Global, view: &View) -> Result<Self, AllocError>
        ensures lists { IfOk result (AreListsOf (seen view.now)) }
        ensures scopes { IfOk result (AreListed (seen view.now) 0) }
        ensures each { IfOk result (λ lists. (owner : ℕ) → IsListed lists owner) }
    {
        let mut lists = Self::new(alloc, view)?;
        lists.add_scopes(alloc, view, 0)?;
        Ok(lists)
    }

    /// Those of what is seen of a namespace, with the scopes of the new objects alone.
    ///
    /// # Errors
    ///
    /// Want of memory.
    pub fn build_added(alloc: Global, view: &View) -> Result<Self, AllocError>
        ensures lists { IfOk result (AreListsOf (seen view.now)) }
        ensures scopes { IfOk result (AreListed (seen view.now) (length view.now.objects.now)) }
    {
        let mut lists = Self::new(alloc, view)?;
        lists.add_scopes(alloc, view, view.objects.len())?;
        Ok(lists)
    }

    /// Makes the scopes of the objects from a place on.
    fn add_scopes(&mut self, alloc: Global, view: &View, first: usize) -> Result<(), AllocError>
        requires { AreListsOf (seen view.now) self.old }
        ensures lists { AreListsOf (seen view.now) self.new }
        ensures scopes { OnOk result (AreListed (seen view.now) first self.new) }
    {
        let searches = relocations_from(view, first);
        self.orders.add_for(alloc, view, searches)?;
        self.scopes.add_definers(alloc, view, searches)?;
        let end = view.objects.len() + view.added.len();
        let owners = Owners::between(alloc, view, first, end)?;
        let scopes = Scopes::of(alloc, view, &self.links, owners)?;
        self.scopes.add_all(alloc, &scopes, first, end)
    }

    /// Makes the scope of the object with a serial for one search, unless it is there.
    ///
    /// # Errors
    ///
    /// Want of memory. They are those of the namespace still.
    pub fn add_scope(&mut self, alloc: Global, view: &View, owner: Serial) -> Result<(), AllocError>
        requires { AreListsOf (seen view.now) self.old }
        ensures lists { AreListsOf (seen view.now) self.new }
        ensures scope { OnOk result (IsListed self.new owner) }
    {
        self.count_search(alloc, view)?;
        match self.links.places.get(owner) {
            Some(place) => self.add_scope_at(alloc, view, place),
            None => Ok(()),
        }
    }

    /// Counts one search more. Whenever they have doubled, the orders are made that are worth it for so many: want
    /// of memory may come of it.
    fn count_search(&mut self, alloc: Global, view: &View) -> Result<(), AllocError>
        requires { AreListsOf (seen view.now) self.old }
        ensures { AreListsOf (seen view.now) self.new }
    {
        self.searches = self.searches.saturating_add(1);
        if self.searches.is_power_of_two() {
            self.orders.add_for(alloc, view, self.searches)?;
        }
        Ok(())
    }

    /// The same of the object at a place in load order.
    fn add_scope_at(&mut self, alloc: Global, view: &View, place: usize) -> Result<(), AllocError>
        requires { AreListsOf (seen view.now) self.old }
        ensures lists { AreListsOf (seen view.now) self.new }
        ensures scope { OnOk result ((o : loaded) → slice_get (seen view.now).objects place ≡ Some o → IsListedAt self.new place) }
    {
        if self.scopes.has(place) {
            return Ok(());
        }
        let owners = Owners::at(alloc, view, place)?;
        let scopes = Scopes::of(alloc, view, &self.links, owners)?;
        self.scopes.add(alloc, &scopes, place)
    }

    /// Where the references of an object are searched, of any namespace whose lists these are.
    pub fn scope(&self, owner: Serial) -> ScopeParts
        ensures { (s : Seen) (o : loaded) → AreListsOf s self.now → IsListed self.now owner → object_of s owner ≡ Some o → ArePartsOf s o result }
    {
        match self.links.places.get(owner) {
            Some(place) => self.scope_at(place),
            None => ScopeParts::none(),
        }
    }

    /// Where the references of the object at a place in load order are searched, of any namespace whose
    /// lists these are.
    pub fn scope_at(&self, place: usize) -> ScopeParts
        ensures { (s : Seen) (o : loaded) → AreListsOf s self.now → IsListedAt self.now place → slice_get s.objects place ≡ Some o → ArePartsOf s o result }
    {
        self.scopes.get(place)
    }

    /// The names of the versions of the object at a place in load order, of any namespace whose lists
    /// these are.
    pub fn names_at(&self, place: usize) -> Option<&VersionNames>
        ensures { (s : Seen) (o : loaded) → AreListsOf s self.now → slice_get s.objects place ≡ Some o → option_copied result ≡ Some (places_of o.object) }
    {
        names_at(self.names.as_slice(), place)
    }

    /// The definitions of the object at a place in load order by their names, of any namespace whose lists these
    /// are. None says that they weren't put in order; whether they are is of speed alone.
    pub fn order_at(&self, place: usize) -> Option<&NameOrder>
        ensures { (s : Seen) (o : loaded) → AreListsOf s self.now → slice_get s.objects place ≡ Some o → IfSome result (λ order. IsNameOrder o.object order.now) }
    {
        self.orders.get(place)
    }

    /// The place in load order of the object with a serial, of any namespace whose lists these are.
    pub fn place(&self, serial: Serial) -> Option<usize>
        ensures { (s : Seen) → AreListsOf s self.now → at_place s result ≡ object_of s serial }
    {
        self.links.places.get(serial)
    }

    /// The object with a serial, of what is seen of the namespace whose lists these are.
    pub fn object<'a>(&self, view: &View<'a>, serial: Serial) -> Option<&'a Loaded>
        requires { AreListsOf (seen view.now) self.now }
        ensures { option_copied result ≡ object_of (seen view.now) serial }
    {
        self.links.places.object(view, serial)
    }
}
