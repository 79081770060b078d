//! What searches for the references of one object.

use crate::looking::{sought_of, stays_own, version_asked};
use crate::searched::first_in_parts;
use ld_base::{Choice, Loaded, Name, Symbol};
use scope_lists::{ScopeParts, SearchLists, VersionNames};
use scope_rule::{View, choice_of};
use std::marker::Model;

/// An object, and what its references are searched in.
/// Contracts see the object, and what is seen of its namespace.
#[derive(Drop)]
pub(crate) struct Searching<'a> {
    view: View<'a>,
    lists: &'a SearchLists,
    pub(crate) owner: &'a Loaded,
    /// The names of the owner's versions.
    names: Option<&'a VersionNames>,
    parts: ScopeParts<'a>,
}

impl<'a> Model for Searching<'a> {
    ghost use Rattle.std.specs.Prelude.{◌≡◌, IfSome};
    ghost use Rattle.scope_rule.specs.Seen.{seen};
    ghost use Rattle.scope_lists.specs.Lists.{AreListsOf, ArePartsOf};
    ghost use Rattle.sym_lookup.specs.Looking.{HaveTables};
    ghost use Rattle.sym_lookup.specs.References.{Referring};
    ghost use Rattle.scope_lists.specs.VersionPlaces.Places.{places_of};

    ghost Value = { Referring };

    ghost view = { λ s. record { seen = seen s.view; owner = s.owner.now } };

    ghost invariant = { λ s.
        AreListsOf (seen s.view) s.lists.now
        × IfSome s.names (λ n. n.now ≡ places_of s.owner.now.object)
        × HaveTables (seen s.view)
        × ArePartsOf (seen s.view) s.owner.now s.parts };
}

impl<'a> Searching<'a> {
    ghost use Rattle.std.specs.Prelude.{◌≡◌, ◌<◌, length, IfSome};
    ghost use Rattle.std.specs.Option.{option_copied};
    ghost use Rattle.scope_rule.specs.Choose.{choose_for, want_of};
    ghost use Rattle.scope_rule.specs.Seen.{seen};
    ghost use Rattle.scope_lists.specs.Lists.{AreListsOf, ArePartsOf};
    ghost use Rattle.sym_lookup.specs.Looking.{HaveTables, choice_of_symbol, want_for};
    ghost use Rattle.scope_lists.specs.VersionPlaces.Places.{places_of};

    /// Those of an object with these names of versions, which these are the parts of the scope of.
    pub(crate) fn new(
        view: &View<'a>,
        lists: &'a SearchLists,
        names: Option<&'a VersionNames>,
        parts: ScopeParts<'a>,
        owner: &'a Loaded,
    ) -> Self
        requires lists { AreListsOf (seen view.now) lists.now }
        requires names { IfSome names (λ n. n.now ≡ places_of owner.now.object) }
        requires tables { HaveTables (seen view.now) }
        requires scope { ArePartsOf (seen view.now) owner.now parts }
        ensures { result ≡ record { seen = seen view.now; owner = owner.now } }
    {
        Searching {
            view: *view,
            lists,
            owner,
            names,
            parts,
        }
    }

    /// The version that a reference to a symbol of the object asks for.
    pub(crate) fn version(&self, symbol: &Symbol) -> Option<&'a Name>
        ensures { want_of self.now.owner.object symbol.now ≡ want_for (option_copied result) }
    {
        version_asked(&self.owner.object, self.names, symbol)
    }

    /// The choice for a symbol of the object.
    fn search_for(&self, index: u32, symbol: &Symbol, copy: bool) -> Choice
        ensures { result ≡ choose_for self.now.seen self.now.owner index symbol.now copy }
    {
        let owner = self.owner;
        if stays_own(symbol, copy) {
            Choice::Def(owner.serial, index)
        } else {
            let sought = sought_of(&owner.object, self.names, symbol);
            let found = first_in_parts(
                &self.view,
                self.lists,
                &sought,
                self.parts,
                owner.serial,
                copy,
            );
            choice_of(symbol, found)
        }
    }

    /// The same, of the symbol at an index.
    pub(crate) fn search(&self, index: u32, copy: bool) -> Choice
        requires { index < length self.now.owner.object.symbols }
        ensures { result ≡ choice_of_symbol self.now.seen self.now.owner index copy }
    {
        let symbol = &self.owner.object.symbols.as_slice()[index as usize];
        self.search_for(index, symbol, copy)
    }
}
