//! Search lists that are kept.

ghost use Rattle.std.specs.Prelude.{◌≡◌, ◌<◌, ℕ, None, true, find, length, position, IfNone, IfSome, IsSome, IsTrue, OnOk};
ghost use Rattle.std.specs.Option.{option_copied};
ghost use Rattle.history_state.specs.Objects.{has_object};
ghost use Rattle.link_names.specs.Kept.{AreKept, IsHome, kept_at};
ghost use Rattle.scope_rule.specs.Seen.{seen_in};
ghost use Rattle.scope_lists.specs.Lists.{AreListsOf};

use ld_base::Serial;
use link_spaces::has_object;
use scope_lists::SearchLists;
use scope_rule::Namespace;
use std::alloc::{AllocError, Global};
use std::collections::HashMap;

/// The search lists of namespaces, by the place of a namespace, where they are made.
#[derive(Drop)]
pub(crate) struct KeptLists {
    by_place: HashMap<usize, SearchLists>,
}

/// The place of a namespace with an object, if one has it: of one whose lists are made, by a look-up in each, or
/// else of the first.
pub(crate) fn home(namespaces: &[Namespace], lists: &KeptLists, owner: Serial) -> Option<usize>
    requires { AreKept namespaces.now lists.now }
    ensures there { IfSome result (IsHome namespaces.now owner) }
    ensures none { IfNone result (find (has_object owner) namespaces.now ≡ None) }
{
    match listed_home(namespaces, lists, owner) {
        Some(place) => Some(place),
        None => first_home(namespaces, owner),
    }
}

/// The place of a namespace whose lists are made and have an object.
fn listed_home(namespaces: &[Namespace], lists: &KeptLists, owner: Serial) -> Option<usize>
    requires { AreKept namespaces.now lists.now }
    ensures { IfSome result (IsHome namespaces.now owner) }
{
    for (place, namespace) in namespaces.iter().enumerate() {
        if lists.have(namespace, place, owner) {
            return Some(place);
        }
    }
    None
}

/// The place of the first namespace with an object.
fn first_home(namespaces: &[Namespace], owner: Serial) -> Option<usize>
    ensures { result ≡ position (has_object owner) namespaces.now }
{
    namespaces
        .iter()
        .position(|namespace| has_object(namespace, owner))
}

impl KeptLists {
    ghost use Rattle.std.specs.Prelude.{◌≡◌, ◌<◌, ℕ, List, None, true, length, IfSome, IsSome, IsTrue, OnOk};
    ghost use Rattle.std.specs.Option.{option_copied};
    ghost use Rattle.history_state.specs.Objects.{has_object};
    ghost use Rattle.link_names.specs.Kept.{AreKept, IsMade, kept_at};
    ghost use Rattle.scope_rule.specs.Seen.{seen_in};
    ghost use Rattle.scope_rule.specs.declared.namespace.Namespace.{Namespace as Space};
    ghost use Rattle.scope_lists.specs.Lists.{AreListsOf};

    /// None yet.
    pub(crate) fn new(alloc: Global) -> Self
        ensures { (place : ℕ) → kept_at result place ≡ None }
    {
        KeptLists {
            by_place: HashMap::new(alloc),
        }
    }

    /// Lets go of all lists, unless they stay.
    pub(crate) fn keep_if(&mut self, alloc: Global, stay: bool)
        ensures kept { (namespaces : List Space) → (stay ≡ true → AreKept namespaces self.old) → AreKept namespaces self.new }
        ensures same { stay ≡ true → self.new ≡ self.old }
    {
        if !stay {
            *self = KeptLists::new(alloc);
        }
    }

    /// The lists of the namespace at a place, if they are made.
    pub(crate) fn get(&self, place: usize) -> Option<&SearchLists>
        ensures { option_copied result ≡ kept_at self.now place }
    {
        self.by_place.get(&place)
    }

    /// Whether the lists of the namespace at a place are made, and the namespace has an object.
    fn have(&self, namespace: &Namespace, place: usize, owner: Serial) -> bool
        requires { IfSome (kept_at self.now place) (AreListsOf (seen_in namespace.now)) }
        ensures { result ≡ true → IsTrue (has_object owner namespace.now) }
    {
        match self.get(place) {
            Some(lists) => lists.object(&namespace.view(), owner).is_some(),
            None => false,
        }
    }

    /// Makes the lists of the namespace at a place, if they aren't made, and the scope of one of its objects, if
    /// that isn't.
    ///
    /// # Errors
    ///
    /// Want of memory.
    pub(crate) fn make(
        &mut self,
        alloc: Global,
        namespaces: &[Namespace],
        place: usize,
        owner: Serial,
    ) -> Result<(), AllocError>
        requires place { place < length namespaces.now }
        requires kept { AreKept namespaces.now self.old }
        ensures kept { AreKept namespaces.now self.new }
        ensures made { OnOk result (IsMade self.new owner place) }
    {
        self.make_lists(alloc, namespaces, place)?;
        self.make_scope(alloc, namespaces, place, owner)
    }

    /// Makes the lists of the namespace at a place, if they aren't made.
    fn make_lists(
        &mut self,
        alloc: Global,
        namespaces: &[Namespace],
        place: usize,
    ) -> Result<(), AllocError>
        requires place { place < length namespaces.now }
        requires kept { AreKept namespaces.now self.old }
        ensures kept { AreKept namespaces.now self.new }
        ensures there { OnOk result (IsSome (kept_at self.new place)) }
    {
        if !self.by_place.contains_key(&place) {
            let lists = SearchLists::new(alloc, &namespaces[place].view())?;
            self.by_place.insert(place, lists)?;
        }
        Ok(())
    }

    /// Makes the scope of an object of the namespace at a place, whose lists are made, if it isn't there.
    fn make_scope(
        &mut self,
        alloc: Global,
        namespaces: &[Namespace],
        place: usize,
        owner: Serial,
    ) -> Result<(), AllocError>
        requires place { place < length namespaces.now }
        requires kept { AreKept namespaces.now self.old }
        requires there { IsSome (kept_at self.old place) }
        ensures kept { AreKept namespaces.now self.new }
        ensures made { OnOk result (IsMade self.new owner place) }
    {
        let view = namespaces[place].view();
        match self.by_place.get_mut(&place) {
            Some(lists) => lists.add_scope(alloc, &view, owner),
            None => Ok(()),
        }
    }
}
