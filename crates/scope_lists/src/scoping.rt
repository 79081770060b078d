//! The scopes of objects.

ghost use Rattle.std.specs.Prelude.{◌≡◌, ◌++◌, ◌||◌, List, [], true, not, filter, map, IfOk, OnOk};
ghost use Rattle.std.specs.List.{list_any};
ghost use Rattle.scope_rule.specs.Breadth.{breadth};
ghost use Rattle.scope_rule.specs.Loading.{is_dying, is_dying_at};
ghost use Rattle.scope_rule.specs.Scope.{scope, whole_scope};
ghost use Rattle.scope_rule.specs.Seen.{seen};
ghost use Rattle.scope_lists.specs.Brought.{brought_in};
ghost use Rattle.scope_lists.specs.Kept.{IsOwn, IsScope, after_of, before_of, entry_in};
ghost use Rattle.scope_rule.specs.Places.{serials_of};
ghost use Rattle.scope_lists.specs.declared.searched.Searched.{Searched as Entry};

use crate::breadth_first::breadth;
use crate::brought::Brought;
use crate::covering::Covering;
use crate::kept::KeptScope;
use crate::links::Links;
use crate::owners::Owners;
use crate::searched::{Searched, entries};
use ld_base::{Loaded, Serial, Serials};
use scope_rule::{Places, View, is_dying, object_at};
use std::alloc::{AllocError, Global};
use std::marker::Model;

/// What scopes of objects of a namespace are made of, found once. Contracts see what is seen of the
/// namespace, and the serials of these objects.
#[derive(Drop)]
pub(crate) struct Scopes<'a, 'b> {
    view: View<'a>,
    links: &'b Links,
    owners: Owners,
    brought: Brought,
    covering: Covering,
    /// Whether the destructors of one of the objects run.
    closing: bool,
}

impl<'a, 'b> Model for Scopes<'a, 'b> {
    ghost use Rattle.std.specs.Prelude.{◌≡◌};
    ghost use Rattle.std.specs.List.{list_any};
    ghost use Rattle.scope_rule.specs.Loading.{is_dying};
    ghost use Rattle.scope_rule.specs.Seen.{seen};
    ghost use Rattle.scope_lists.specs.Asking.{Asking};
    ghost use Rattle.scope_lists.specs.Brought.{AreBrought};
    ghost use Rattle.scope_lists.specs.Covering.{IsCovering};
    ghost use Rattle.scope_lists.specs.Links.{AreLinks};

    ghost Value = { Asking };

    ghost view = { λ s. record { seen = seen s.view; owners = s.owners.serials.keys } };

    ghost invariant = { λ s.
        AreLinks (seen s.view) s.links.now
        × AreBrought (seen s.view) s.owners.serials.keys s.brought
        × IsCovering (seen s.view) s.covering
        × (s.closing ≡ list_any is_dying (seen s.view).objects) };
}

/// Whether the destructors of one of these run.
fn has_dying(view: &View) -> bool
    ensures { result ≡ list_any is_dying (seen view.now).objects }
{
    any_dying(view.objects) || any_dying(view.added)
}

fn any_dying(objects: &[Loaded]) -> bool
    ensures { result ≡ list_any is_dying objects.now }
{
    objects.iter().any(|object| is_dying(object))
}

/// Puts every object that a reference of the owner may be to, those closing too, into an empty list.
fn fill_scope(
    view: &View,
    brought: &[Serial],
    libraries: &[Serial],
    owner: &Loaded,
    scope: &mut Serials,
) -> Result<(), AllocError>
    requires empty { scope.old ≡ [] }
    requires brought { brought.now ≡ brought_in (seen view.now) owner.now.serial }
    requires libraries { libraries.now ≡ breadth (seen view.now) owner.now.serial }
    ensures { OnOk result (scope.new ≡ whole_scope (seen view.now) owner.now) }
{
    if owner.object.flags.symbolic {
        scope.push(owner.serial)?;
    }
    if !owner.deep {
        scope.extend_from_slice(view.global)?;
    }
    scope.extend_from_slice(brought)?;
    scope.extend_from_slice(libraries)?;
    if owner.deep {
        scope.extend_from_slice(view.global)?;
    }
    scope.push(Serial::LINKER)
}

/// Puts what comes before the global list into one empty list, and what comes behind it into another, where
/// this is searched of an object's own.
fn fill_parts(
    owner: &Loaded,
    own: &[Serial],
    before: &mut Serials,
    after: &mut Serials,
) -> Result<(), AllocError>
    requires before { before.old ≡ [] }
    requires after { after.old ≡ [] }
    ensures before { OnOk result (before.new ≡ before_of owner.now own.now) }
    ensures after { OnOk result (after.new ≡ after_of owner.now own.now) }
{
    if owner.object.flags.symbolic {
        before.push(owner.serial)?;
    }
    if owner.deep {
        before.extend_from_slice(own)?;
    } else {
        after.extend_from_slice(own)?;
    }
    after.push(Serial::LINKER)
}

/// Of these objects those whose destructors don't run.
fn standing(
    alloc: Global,
    view: &View,
    places: &Places,
    whole: &[Serial],
) -> Result<Serials, AllocError>
    requires { places.now ≡ serials_of (seen view.now) }
    ensures { IfOk result (λ found. found ≡ filter (λ s. not (is_dying_at (seen view.now) s)) whole.now) }
{
    let found: Vec<Serial> = whole
        .iter()
        .copied()
        .filter(|serial| !places.is_dying(view, *serial))
        .collect(alloc)?;
    Ok(Serials::from(found))
}

/// What openings bring, and then these libraries.
fn with_libraries(brought: Serials, libraries: &[Serial]) -> Result<Serials, AllocError>
    ensures { IfOk result (λ own. own ≡ brought ++ libraries.now) }
{
    let mut own = brought;
    own.extend_from_slice(libraries)?;
    Ok(own)
}

/// No object.
fn no_entries(alloc: Global) -> Vec<Searched>
    ensures { result.items ≡ [] }
{
    Vec::new(alloc)
}

/// The scope of an object that is this list, which nothing shares.
fn unshared(
    alloc: Global,
    view: &View,
    places: &Places,
    owner: &Loaded,
    list: &[Serial],
) -> Result<KeptScope, AllocError>
    requires places { places.now ≡ serials_of (seen view.now) }
    requires list { list.now ≡ scope (seen view.now) owner.now }
    ensures { IfOk result (λ found. (global : List Entry) → IsScope (seen view.now) global owner.now found) }
{
    let before = entries(alloc, places, list)?;
    Ok(KeptScope {
        before,
        is_global: false,
        after: no_entries(alloc),
    })
}

/// The scope of an object that sees each object, where this is searched of its own.
fn beside_global(
    alloc: Global,
    view: &View,
    places: &Places,
    owner: &Loaded,
    own: &[Serial],
) -> Result<KeptScope, AllocError>
    requires places { places.now ≡ serials_of (seen view.now) }
    requires own { IsOwn (seen view.now) owner.now own.now }
    requires sees { (is_dying owner.now || not (list_any is_dying (seen view.now).objects)) ≡ true }
    ensures { IfOk result (λ found. (global : List Entry) → global ≡ map (entry_in (serials_of (seen view.now))) (seen view.now).global
        → IsScope (seen view.now) global owner.now found) }
{
    let mut first = Serials::new(alloc);
    let mut last = Serials::new(alloc);
    fill_parts(owner, own, &mut first, &mut last)?;
    let before = entries(alloc, places, first.as_slice())?;
    let after = entries(alloc, places, last.as_slice())?;
    Ok(KeptScope {
        before,
        is_global: true,
        after,
    })
}

impl<'a, 'b> Scopes<'a, 'b> {
    ghost use Rattle.std.specs.Prelude.{◌≡◌, ◌||◌, List, map, true, not, filter, slice_get, IfOk};
    ghost use Rattle.std.specs.List.{list_any};
    ghost use Rattle.std.specs.Option.{option_copied};
    ghost use Rattle.scope_rule.specs.Loading.{is_dying, is_dying_at};
    ghost use Rattle.scope_rule.specs.Scope.{scope, whole_scope};
    ghost use Rattle.scope_rule.specs.Seen.{seen};
    ghost use Rattle.scope_rule.specs.Breadth.{has};
    ghost use Rattle.scope_lists.specs.Brought.{brought_in};
    ghost use Rattle.scope_lists.specs.Kept.{IsOwn, IsScope, entry_in};
    ghost use Rattle.scope_lists.specs.Links.{AreLinks};
    ghost use Rattle.scope_rule.specs.Places.{serials_of};
    ghost use Rattle.scope_lists.specs.declared.searched.Searched.{Searched as Entry};

    /// Those of objects of what is seen of a namespace.
    pub(crate) fn of(
        alloc: Global,
        view: &View<'a>,
        links: &'b Links,
        owners: Owners,
    ) -> Result<Self, AllocError>
        requires { AreLinks (seen view.now) links.now }
        ensures { IfOk result (λ scopes. scopes ≡ record { seen = seen view.now; owners = owners.serials.keys }) }
    {
        let brought = Brought::of(alloc, view, links, &owners)?;
        let covering = Covering::of(alloc, view, links)?;
        Ok(Scopes {
            view: *view,
            links,
            owners,
            brought,
            covering,
            closing: has_dying(view),
        })
    }

    /// The object at a place in load order.
    pub(crate) fn owner(&self, place: usize) -> Option<&'a Loaded>
        ensures { option_copied result ≡ slice_get self.now.seen.objects place }
    {
        object_at(&self.view, place)
    }

    /// Every object that a reference of the owner may be to, those closing too.
    fn whole_scope(&self, alloc: Global, owner: &Loaded) -> Result<Serials, AllocError>
        requires { has self.now.owners owner.now.serial ≡ true }
        ensures { IfOk result (λ whole. whole ≡ whole_scope self.now.seen owner.now) }
    {
        let brought = self.brought_to(alloc, owner.serial)?;
        let brought = brought.as_slice();
        let libraries = breadth(alloc, &self.view, self.links, owner.serial)?;
        let libraries = libraries.as_slice();
        let mut whole = Serials::new(alloc);
        fill_scope(&self.view, brought, libraries, owner, &mut whole)?;
        Ok(whole)
    }

    /// What the openings bring to one of the owners.
    fn brought_to(&self, alloc: Global, serial: Serial) -> Result<Serials, AllocError>
        requires { has self.now.owners serial ≡ true }
        ensures { IfOk result (λ found. found ≡ brought_in self.now.seen serial) }
    {
        self.brought.to(alloc, serial)
    }

    /// Whether the owner sees each object: it is closing itself, or none is.
    fn sees_all(&self, owner: &Loaded) -> bool
        ensures { result ≡ (is_dying owner.now || not (list_any is_dying self.now.seen.objects)) }
    {
        is_dying(owner) || !self.closing
    }

    /// Of these objects those that the owner sees: one that isn't closing sees none that is.
    fn visible(&self, alloc: Global, owner: &Loaded, whole: Serials) -> Result<Serials, AllocError>
        ensures { IfOk result (λ found. found ≡ filter (λ s. is_dying owner.now || not (is_dying_at self.now.seen s)) whole) }
    {
        if self.sees_all(owner) {
            return Ok(whole);
        }
        standing(alloc, &self.view, &self.links.places, whole.as_slice())
    }

    /// Where the references of an object are searched, in order (gABI, "Shared Object Dependencies").
    #[tactic(auto, unfolding(scope_rule::specs::Scope::scope))]
    fn list(&self, alloc: Global, owner: &Loaded) -> Result<Serials, AllocError>
        requires { has self.now.owners owner.now.serial ≡ true }
        ensures { IfOk result (λ found. found ≡ scope self.now.seen owner.now) }
    {
        let whole = self.whole_scope(alloc, owner)?;
        self.visible(alloc, owner, whole)
    }

    /// That list, which nothing shares.
    fn alone(&self, alloc: Global, owner: &Loaded) -> Result<KeptScope, AllocError>
        requires { has self.now.owners owner.now.serial ≡ true }
        ensures { IfOk result (λ found. (global : List Entry) → IsScope self.now.seen global owner.now found) }
    {
        let list = self.list(alloc, owner)?;
        unshared(
            alloc,
            &self.view,
            &self.links.places,
            owner,
            list.as_slice(),
        )
    }

    /// What is searched of an owner's own, which openings bring and to which it leads. None of that is, where
    /// the global list comes before it and has all of it.
    fn own(&self, alloc: Global, owner: &Loaded) -> Result<Serials, AllocError>
        requires { has self.now.owners owner.now.serial ≡ true }
        ensures { IfOk result (IsOwn self.now.seen owner.now) }
    {
        if !owner.deep && self.covering.has(owner.serial) {
            return Ok(Serials::new(alloc));
        }
        let brought = self.brought_to(alloc, owner.serial)?;
        let libraries = breadth(alloc, &self.view, self.links, owner.serial)?;
        with_libraries(brought, libraries.as_slice())
    }

    /// Where the references of an owner that sees each object are searched, beside the global list.
    fn shared(&self, alloc: Global, owner: &Loaded) -> Result<KeptScope, AllocError>
        requires asks { has self.now.owners owner.now.serial ≡ true }
        requires sees { (is_dying owner.now || not (list_any is_dying self.now.seen.objects)) ≡ true }
        ensures { IfOk result (λ found. (global : List Entry) → global ≡ map (entry_in (serials_of self.now.seen)) self.now.seen.global
            → IsScope self.now.seen global owner.now found) }
    {
        let own = self.own(alloc, owner)?;
        beside_global(alloc, &self.view, &self.links.places, owner, own.as_slice())
    }

    /// Where the references of an owner are searched: beside the global list, if it sees all of that.
    pub(crate) fn scope(&self, alloc: Global, owner: &Loaded) -> Result<KeptScope, AllocError>
        requires { has self.now.owners owner.now.serial ≡ true }
        ensures { IfOk result (λ found. (global : List Entry) → global ≡ map (entry_in (serials_of self.now.seen)) self.now.seen.global
            → IsScope self.now.seen global owner.now found) }
    {
        if self.sees_all(owner) {
            self.shared(alloc, owner)
        } else {
            self.alone(alloc, owner)
        }
    }
}
