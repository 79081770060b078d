//! Scopes that are kept.

ghost use Rattle.std.specs.Prelude.{◌≡◌, List, [], if◌then◌else◌, IfSome};
ghost use Rattle.ld_base.specs.declared.linking.Loaded.{Loaded as LoadedObject};
ghost use Rattle.scope_lists.specs.Definers.{AreDefiners};
ghost use Rattle.scope_lists.specs.Kept.{kept_in};
ghost use Rattle.scope_lists.specs.Searched.{in_parts};

use crate::definers::{Definers, is_worth_it};
use crate::scoping::Scopes;
use crate::searched::{ScopeParts, Searched};
use ld_base::Loaded;
use scope_rule::View;
use std::alloc::{AllocError, Global};
use std::collections::HashMap;

/// Where the references of an object are searched, beside a global list that many share.
#[derive(Drop)]
pub(crate) struct KeptScope {
    /// What comes before the global list.
    pub(crate) before: Vec<Searched>,
    /// Whether the global list is searched.
    pub(crate) is_global: bool,
    /// What comes behind it.
    pub(crate) after: Vec<Searched>,
}

/// Where the references of objects are searched, by the places of these objects in load order: of those alone
/// for which it was asked.
#[derive(Drop)]
pub(crate) struct KeptScopes {
    /// The global list of the namespace.
    global: Vec<Searched>,
    /// Which objects of that list have definitions under a hash, if that was worth it.
    definers: Option<Definers>,
    by_place: HashMap<usize, KeptScope>,
}

/// A global list, if it is searched.
fn global_of(global: &[Searched], is_searched: bool) -> &[Searched]
    ensures { result.now ≡ (if is_searched then global.now else []) }
{
    if is_searched { global } else { &[] }
}

/// The parts of a scope beside a global list, of which this is known if it is searched.
fn parts_of<'a>(
    global: &'a [Searched],
    definers: Option<&'a Definers>,
    scope: &'a KeptScope,
) -> ScopeParts<'a>
    ensures parts { in_parts result ≡ kept_in global.now scope.now }
    ensures definers { (objects : List LoadedObject) → IfSome definers.entry (λ d. AreDefiners objects global.now d.now)
        → IfSome result.definers (λ d. AreDefiners objects result.global.now d.now) }
{
    ScopeParts {
        before: scope.before.as_slice(),
        global: global_of(global, scope.is_global),
        definers: definers.filter(|_| scope.is_global),
        after: scope.after.as_slice(),
    }
}

impl KeptScopes {
    ghost use Rattle.std.specs.Prelude.{◌≡◌, ◌<◌, ◌≤◌, ℕ, List, true, None, Some, slice_get, IfSome, IsSome, OnOk};
    ghost use Rattle.std.specs.Option.{is_some};
    ghost use Rattle.ld_base.specs.declared.linking.Loaded.{Loaded as LoadedObject};
    ghost use Rattle.scope_rule.specs.Breadth.{has};
    ghost use Rattle.scope_rule.specs.Seen.{seen};
    ghost use Rattle.scope_lists.specs.Definers.{AreDefiners};
    ghost use Rattle.scope_lists.specs.Kept.{AreScopes, KeepsAll, kept_at, kept_in};
    ghost use Rattle.scope_lists.specs.Searched.{in_parts};
    ghost use Rattle.scope_lists.specs.declared.kept.KeptScope.{KeptScope as Kept};

    /// None yet, of a namespace with this global list.
    pub(crate) fn new(alloc: Global, global: Vec<Searched>) -> Self
        ensures global { result.global.items ≡ global.items }
        ensures definers { result.definers ≡ None }
        ensures none { (place : ℕ) → kept_at result place ≡ None }
    {
        KeptScopes {
            global,
            definers: None,
            by_place: HashMap::new(alloc),
        }
    }

    /// Whether that of the object at a place is there.
    pub(crate) fn has(&self, place: usize) -> bool
        ensures { result ≡ is_some (kept_at self.now place) }
    {
        self.by_place.contains_key(&place)
    }

    /// That of the object at a place. Where it isn't there, nothing is searched.
    pub(crate) fn get(&self, place: usize) -> ScopeParts
        ensures parts { (found : Kept) → kept_at self.now place ≡ Some found → in_parts result ≡ kept_in self.now.global.items found }
        ensures definers { (objects : List LoadedObject) → IfSome self.now.definers (AreDefiners objects self.now.global.items)
            → IfSome result.definers (λ d. AreDefiners objects result.global.now d.now) }
    {
        match self.by_place.get(&place) {
            Some(scope) => parts_of(self.global.as_slice(), self.definers.as_ref(), scope),
            None => ScopeParts::none(),
        }
    }

    /// Makes known which objects of the global list have definitions under a hash, if that is worth it for so many
    /// searches.
    pub(crate) fn add_definers(
        &mut self,
        alloc: Global,
        view: &View,
        searches: usize,
    ) -> Result<(), AllocError>
        requires { AreScopes (seen view.now) self.old }
        ensures { AreScopes (seen view.now) self.new }
    {
        if is_worth_it(view, self.global.as_slice(), searches) {
            self.definers = Definers::of(alloc, view, self.global.as_slice())?;
        }
        Ok(())
    }

    /// Makes that of the object at a place, if there is one.
    pub(crate) fn add(
        &mut self,
        alloc: Global,
        scopes: &Scopes,
        place: usize,
    ) -> Result<(), AllocError>
        requires scopes { AreScopes scopes.now.seen self.old }
        requires asks { (o : LoadedObject) → slice_get scopes.now.seen.objects place ≡ Some o → has scopes.now.owners o.serial ≡ true }
        ensures scopes { AreScopes scopes.now.seen self.new }
        ensures all { KeepsAll self.old self.new }
        ensures there { OnOk result ((o : LoadedObject) → slice_get scopes.now.seen.objects place ≡ Some o → IsSome (kept_at self.new place)) }
    {
        match scopes.owner(place) {
            Some(owner) => self.add_of(alloc, scopes, place, owner),
            None => Ok(()),
        }
    }

    /// Makes that of this object, which stands at the place.
    fn add_of(
        &mut self,
        alloc: Global,
        scopes: &Scopes,
        place: usize,
        owner: &Loaded,
    ) -> Result<(), AllocError>
        requires there { slice_get scopes.now.seen.objects place ≡ Some owner.now }
        requires asks { has scopes.now.owners owner.now.serial ≡ true }
        requires scopes { AreScopes scopes.now.seen self.old }
        ensures scopes { AreScopes scopes.now.seen self.new }
        ensures all { KeepsAll self.old self.new }
        ensures there { OnOk result (IsSome (kept_at self.new place)) }
    {
        let scope = scopes.scope(alloc, owner)?;
        self.by_place.insert(place, scope)?;
        Ok(())
    }

    /// Makes those of the objects from one place to another.
    pub(crate) fn add_all(
        &mut self,
        alloc: Global,
        scopes: &Scopes,
        first: usize,
        end: usize,
    ) -> Result<(), AllocError>
        requires scopes { AreScopes scopes.now.seen self.old }
        requires ask { (place : ℕ) (o : LoadedObject) → first ≤ place → place < end
            → slice_get scopes.now.seen.objects place ≡ Some o → has scopes.now.owners o.serial ≡ true }
        ensures scopes { AreScopes scopes.now.seen self.new }
        ensures there { OnOk result ((place : ℕ) (o : LoadedObject) → first ≤ place → place < end
            → slice_get scopes.now.seen.objects place ≡ Some o → IsSome (kept_at self.new place)) }
    {
        for place in first..end {
            self.add(alloc, scopes, place)?;
        }
        Ok(())
    }
}
