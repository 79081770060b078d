//! The references of one object, each symbol looked up once.

ghost use Rattle.std.specs.Prelude.{◌≡◌, ◌↔◌, ◌<◌, ℕ, Bool, false, length, None, Option, slice_index_or, IfOk, IfSome, IsTrue};
ghost use Rattle.ld_base.specs.declared.linking.Loaded.{Loaded as loaded};
ghost use Rattle.ld_base.specs.declared.object.Symbol.{Symbol as Sym};
ghost use Rattle.scope_rule.specs.Choose.{choice_of};
ghost use Rattle.scope_rule.specs.Seen.{Seen};
ghost use Rattle.sym_lookup.specs.Looking.{choice_of_symbol};
ghost use Rattle.sym_lookup.specs.References.{AreKept, IsAlike};

use crate::looking::{owner_names, searched, stays_own};
use crate::searching::Searching;
use ld_base::{Choice, Loaded, Name, Object, Reloc, Symbol};
use scope_lists::{ScopeParts, SearchLists, VersionNames};
use scope_rule::{View, choice_of, has_no_symbol, is_copy};
use std::alloc::{AllocError, Global};
use std::marker::Model;
use sym_hash::gnu_hash;

/// The references of one object to the definitions of its namespace. What is found for a symbol is
/// kept, so that further relocations against it make no search. Contracts see the object, and what is
/// seen of its namespace.
#[derive(Drop)]
pub struct References<'a> {
    searching: Searching<'a>,
    kept: Kept,
    /// What is kept for COPYs.
    copied: Kept,
}

/// What was found for the symbols of an object.
#[derive(Drop)]
struct Kept {
    /// By the index of a symbol, what it was found to be bound to.
    choices: Vec<Option<Choice>>,
    /// By the hash of a name and a version, modulo their number, the symbol that was searched last of those
    /// that have this place.
    latest: Vec<u32>,
}

impl<'a> Model for References<'a> {
    ghost use Rattle.std.specs.Prelude.{false, true};
    ghost use Rattle.sym_lookup.specs.References.{AreKept, Referring};

    ghost Value = { Referring };

    ghost view = { λ r. r.searching };

    ghost invariant = { λ r.
        AreKept r.searching.seen r.searching.owner false r.kept.choices.items
        × AreKept r.searching.seen r.searching.owner true r.copied.choices.items };
}

/// Nothing kept, for so many symbols.
fn nothing_kept(alloc: Global, symbols: u32) -> Result<Kept, AllocError>
    ensures length { IfOk result (λ kept. length kept.choices.items ≡ symbols) }
    ensures none { IfOk result (λ kept. (k : ℕ) → k < symbols → slice_index_or kept.choices.items k None ≡ None) }
{
    let choices = vec![in alloc; None; symbols as usize]?;
    let latest = vec![in alloc; 0; symbols as usize]?;
    Ok(Kept { choices, latest })
}

/// For how many symbols of an object COPYs are kept: for none where it has none.
fn copied_symbols(object: &Object) -> u32 {
    let has_copies = object.relocs.as_slice().iter().any(|reloc| is_copy(reloc));
    if has_copies { object.symbols.len() } else { 0 }
}

/// The symbol that was searched last of those at the place that this name and version have by their hash; it
/// is this symbol from now on.
fn replace_latest(latest: &mut [u32], symbol: &Symbol, index: u32) -> u32 {
    if latest.is_empty() {
        return index;
    }
    let hash = gnu_hash(symbol.name.as_bytes()) as usize;
    let place = (hash + usize::from(symbol.version_index())) % latest.len();
    let before = latest[place];
    latest[place] = index;
    before
}

/// What is kept for a symbol, if anything.
fn kept_at(kept: &[Option<Choice>], index: u32) -> Option<Choice>
    ensures { result ≡ slice_index_or kept.now index None }
{
    if (index as usize) < kept.len() {
        kept[index as usize]
    } else {
        None
    }
}

/// Keeps the choice for a symbol, if there is room for it.
fn keep(kept: &mut [Option<Choice>], index: u32, choice: &Choice)
    ensures { (s : Seen) (o : loaded) (copy : Bool) → AreKept s o copy kept.old → choice.now ≡ choice_of_symbol s o index copy
        → AreKept s o copy kept.new }
{
    if (index as usize) < kept.len() {
        kept[index as usize] = Some(*choice);
    }
}

/// Whether two symbols of an object ask for the same name and version.
fn is_alike(one: &Symbol, other: &Symbol) -> bool
    ensures { IsTrue result ↔ IsAlike one.now other.now }
{
    one.version_index() == other.version_index() && one.name.is(other.name.as_bytes())
}

/// What a symbol is bound to, where another one that asks for the same has this choice by a search: the
/// same definition; where there is none, what the symbol's own binding says.
fn choice_as(symbol: &Symbol, choice: &Choice) -> Choice
    ensures { (s : Sym) (found : Option (ℕ × ℕ)) → choice.now ≡ choice_of s found → result ≡ choice_of symbol.now found }
{
    match choice {
        Choice::Def(serial, index) => Choice::Def(*serial, *index),
        Choice::WeakZero | Choice::Missing => choice_of(symbol, None),
    }
}

/// What follows from what is kept for another symbol, if that asks for the same and other objects may define
/// both: so a name that many symbols have is searched once.
fn kept_alike(
    owner: &Loaded,
    kept: &[Option<Choice>],
    other: u32,
    index: u32,
    copy: bool,
) -> Option<Choice>
    requires { index < length owner.now.object.symbols }
    ensures { (s : Seen) → AreKept s owner.now copy kept.now → IfSome result (λ c. c ≡ choice_of_symbol s owner.now index copy) }
{
    let symbols = owner.object.symbols.as_slice();
    if other as usize >= symbols.len() {
        return None;
    }
    let symbol = &symbols[index as usize];
    let before = &symbols[other as usize];
    if stays_own(symbol, copy) || stays_own(before, copy) || !is_alike(before, symbol) {
        return None;
    }
    let choice = kept_at(kept, other)?;
    Some(choice_as(symbol, &choice))
}

/// The choice for a symbol of which none is kept.
fn choice_of_unkept(searching: &Searching, kept: &mut Kept, index: u32, copy: bool) -> Choice
    requires symbol { index < length searching.now.owner.object.symbols }
    requires kept { AreKept searching.now.seen searching.now.owner copy kept.old.choices.items }
    ensures choice { result ≡ choice_of_symbol searching.now.seen searching.now.owner index copy }
    ensures same { kept.new.choices ≡ kept.old.choices }
{
    let owner = searching.owner;
    let symbol = &owner.object.symbols.as_slice()[index as usize];
    let other = replace_latest(kept.latest.as_mut_slice(), symbol, index);
    match kept_alike(owner, kept.choices.as_slice(), other, index, copy) {
        Some(choice) => choice,
        None => searching.search(index, copy),
    }
}

/// The choice for a symbol, kept or searched for now.
fn kept_or_searched(searching: &Searching, kept: &mut Kept, index: u32, copy: bool) -> Choice
    requires symbol { index < length searching.now.owner.object.symbols }
    requires kept { AreKept searching.now.seen searching.now.owner copy kept.old.choices.items }
    ensures choice { result ≡ choice_of_symbol searching.now.seen searching.now.owner index copy }
    ensures kept { AreKept searching.now.seen searching.now.owner copy kept.new.choices.items }
{
    match kept_at(kept.choices.as_slice(), index) {
        Some(choice) => choice,
        None => {
            let choice = choice_of_unkept(searching, kept, index, copy);
            keep(kept.choices.as_mut_slice(), index, &choice);
            choice
        }
    }
}

impl<'a> References<'a> {
    ghost use Rattle.std.specs.Prelude.{◌≡◌, ◌<◌, Some, false, true, length, IfOk, IfSome};
    ghost use Rattle.std.specs.List.{slice_get};
    ghost use Rattle.std.specs.Option.{option_copied};
    ghost use Rattle.scope_rule.specs.Choose.{want_of};
    ghost use Rattle.scope_rule.specs.Loading.{object_of};
    ghost use Rattle.scope_rule.specs.Relocation.{choice_at};
    ghost use Rattle.scope_rule.specs.Seen.{seen};
    ghost use Rattle.scope_lists.specs.Lists.{AreListsOf, ArePartsOf, IsListed, IsListedAt};
    ghost use Rattle.sym_lookup.specs.Looking.{HaveTables, choice_of_symbol, want_for};
    ghost use Rattle.scope_lists.specs.VersionPlaces.Places.{places_of};

    /// Those of an object of what is seen of a namespace. The lists are those of the namespace and have the
    /// object's scope, and the table of each of its objects is that object's.
    ///
    /// # Errors
    ///
    /// Want of memory.
    pub fn new(
        alloc: Global,
        view: &View<'a>,
        lists: &'a SearchLists,
        owner: &'a Loaded,
    ) -> Result<Self, AllocError>
        requires lists { AreListsOf (seen view.now) lists.now }
        requires listed { IsListed lists.now owner.now.serial }
        requires tables { HaveTables (seen view.now) }
        requires owner_is_there { object_of (seen view.now) owner.now.serial ≡ Some owner.now }
        ensures { IfOk result (λ references. references ≡ record { seen = seen view.now; owner = owner.now }) }
    {
        let parts = searched(view, lists, owner.serial, owner);
        Self::over(alloc, view, lists, owner_names(lists, owner), parts, owner)
    }

    /// The same as [`References::new`], of the object at a place in load order.
    ///
    /// # Errors
    ///
    /// Want of memory.
    pub fn at(
        alloc: Global,
        view: &View<'a>,
        lists: &'a SearchLists,
        place: usize,
        owner: &'a Loaded,
    ) -> Result<Self, AllocError>
        requires lists { AreListsOf (seen view.now) lists.now }
        requires listed { IsListedAt lists.now place }
        requires tables { HaveTables (seen view.now) }
        requires owner_is_there { slice_get (seen view.now).objects place ≡ Some owner.now }
        ensures { IfOk result (λ references. references ≡ record { seen = seen view.now; owner = owner.now }) }
    {
        let names = lists.names_at(place);
        Self::over(alloc, view, lists, names, lists.scope_at(place), owner)
    }

    /// Those of an object with these names of versions, which these are the parts of the scope of.
    fn over(
        alloc: Global,
        view: &View<'a>,
        lists: &'a SearchLists,
        names: Option<&'a VersionNames>,
        parts: ScopeParts<'a>,
        owner: &'a Loaded,
    ) -> Result<Self, AllocError>
        requires lists { AreListsOf (seen view.now) lists.now }
        requires names { IfSome names (λ n. n.now ≡ places_of owner.now.object) }
        requires tables { HaveTables (seen view.now) }
        requires scope { ArePartsOf (seen view.now) owner.now parts }
        ensures { IfOk result (λ references. references ≡ record { seen = seen view.now; owner = owner.now }) }
    {
        let searching = Searching::new(view, lists, names, parts, owner);
        let kept = nothing_kept(alloc, owner.object.symbols.len())?;
        let copied = nothing_kept(alloc, copied_symbols(&owner.object))?;
        Ok(References {
            searching,
            kept,
            copied,
        })
    }

    /// The version that a reference to a symbol of the object asks for, if it asks for one.
    pub fn version(&self, symbol: &Symbol) -> Option<&'a Name>
        ensures { want_of self.now.owner.object symbol.now ≡ want_for (option_copied result) }
    {
        self.searching.version(symbol)
    }

    /// The choice for a symbol, kept or looked up now.
    fn of_symbol(&mut self, index: u32) -> Choice
        requires { index < length self.old.owner.object.symbols }
        ensures choice { result ≡ choice_of_symbol self.old.seen self.old.owner index false }
        ensures same { self.new ≡ self.old }
    {
        kept_or_searched(&self.searching, &mut self.kept, index, false)
    }

    /// The choice of a COPY of a symbol, kept or looked up now.
    fn of_copy(&mut self, index: u32) -> Choice
        requires { index < length self.old.owner.object.symbols }
        ensures choice { result ≡ choice_of_symbol self.old.seen self.old.owner index true }
        ensures same { self.new ≡ self.old }
    {
        kept_or_searched(&self.searching, &mut self.copied, index, true)
    }

    /// The choice of a relocation of the object when it is loaded, as `scope_rule::choose_reloc` gives
    /// it (psABI, "Relocations"). It takes no memory.
    #[tactic(auto, unfolding(scope_rule::specs::Relocation::choice_at))]
    pub fn choice(&mut self, reloc: &Reloc) -> Choice
        requires { reloc.now.symbol < length self.old.owner.object.symbols }
        ensures choice { result ≡ choice_at self.old.seen self.old.owner reloc.now }
        ensures same { self.new ≡ self.old }
    {
        if has_no_symbol(reloc) {
            return Choice::WeakZero;
        }
        if reloc.symbol == 0 {
            return Choice::Def(self.searching.owner.serial, 0);
        }
        if is_copy(reloc) {
            return self.of_copy(reloc.symbol);
        }
        self.of_symbol(reloc.symbol)
    }
}
