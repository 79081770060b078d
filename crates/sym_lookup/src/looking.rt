//! Looking a reference up in search lists.

ghost use Rattle.std.specs.Prelude.{◌≡◌, ◌<◌, ◌&&◌, not, Some, length, IsSome, IfSome};
ghost use Rattle.std.specs.Option.{option_copied};
ghost use Rattle.scope_rule.specs.Choose.{choose_for, choose_of, is_own, want_of};
ghost use Rattle.scope_rule.specs.Loading.{object_of};
ghost use Rattle.scope_rule.specs.Relocation.{choice_at};
ghost use Rattle.scope_rule.specs.Seen.{Seen, seen, seen_in};
ghost use Rattle.scope_lists.specs.Lists.{AreListsOf, ArePartsOf, IsListed};
ghost use Rattle.sym_lookup.specs.SymFind.Reference.{want_as};
ghost use Rattle.sym_lookup.specs.Looking.{HaveTables, want_for};
ghost use Rattle.scope_lists.specs.VersionPlaces.Places.{places_of};

use crate::searched::{first_in_parts, names_of};
use crate::sym_find::{Asked, Sought};
use ld_base::{Choice, Loaded, Name, Object, Reloc, Serial, Symbol};
use scope_lists::{ScopeParts, SearchLists, VersionNames, version_name};
use scope_rule::{Namespace, View, choice_of, has_no_symbol, is_copy, is_own};

/// The version that a relocation against a symbol asks for: that of the symbol's index, if the index
/// names one (Drepper, "ELF Symbol Versioning").
pub(crate) fn version_asked<'a>(
    object: &'a Object,
    names: Option<&VersionNames>,
    symbol: &Symbol,
) -> Option<&'a Name>
    requires { IfSome names (λ n. n.now ≡ places_of object.now) }
    ensures { want_of object.now symbol.now ≡ want_for (option_copied result) }
{
    if symbol.version_index() < 2 {
        return None;
    }
    version_name(object, names, symbol.version_index())
}

/// What such a relocation asks for.
fn asked_of<'a>(object: &'a Object, names: Option<&VersionNames>, symbol: &Symbol) -> Asked<'a>
    requires { IfSome names (λ n. n.now ≡ places_of object.now) }
    ensures { want_as result ≡ want_of object.now symbol.now }
{
    match version_asked(object, names, symbol) {
        Some(name) => Asked::Version(name.as_bytes()),
        None => Asked::Plain,
    }
}

/// What a symbol of an object refers to.
pub(crate) fn sought_of<'a>(
    object: &'a Object,
    names: Option<&VersionNames>,
    symbol: &'a Symbol,
) -> Sought<'a>
    requires { IfSome names (λ n. n.now ≡ places_of object.now) }
    ensures name { result.name ≡ symbol.now.name }
    ensures want { result.want ≡ want_of object.now symbol.now }
{
    Sought::new(symbol.name.as_bytes(), asked_of(object, names, symbol))
}

/// Whether no other object may define the symbol, and the relocation isn't a COPY.
pub(crate) fn stays_own(symbol: &Symbol, copy: bool) -> bool
    ensures { result ≡ (not copy && is_own symbol.now) }
{
    !copy && is_own(symbol)
}

/// The names of the versions of an object that is there.
pub(crate) fn owner_names<'a>(lists: &'a SearchLists, owner: &Loaded) -> Option<&'a VersionNames>
    ensures { (s : Seen) → AreListsOf s lists.now → object_of s owner.now.serial ≡ Some owner.now → IfSome result (λ n. n.now ≡ places_of owner.now.object) }
{
    names_of(lists, lists.place(owner.serial))
}

/// The choice for a symbol of an object, which these are the parts of the scope of.
fn lookup_for(
    view: &View,
    lists: &SearchLists,
    parts: ScopeParts,
    owner: &Loaded,
    index: u32,
    symbol: &Symbol,
    copy: bool,
) -> Choice
    requires lists { AreListsOf (seen view.now) lists.now }
    requires tables { HaveTables (seen view.now) }
    requires there { object_of (seen view.now) owner.now.serial ≡ Some owner.now }
    requires scope { ArePartsOf (seen view.now) owner.now parts }
    ensures { result ≡ choose_for (seen view.now) owner.now index symbol.now copy }
{
    if stays_own(symbol, copy) {
        Choice::Def(owner.serial, index)
    } else {
        let names = owner_names(lists, owner);
        let sought = sought_of(&owner.object, names, symbol);
        let found = first_in_parts(view, lists, &sought, parts, owner.serial, copy);
        choice_of(symbol, found)
    }
}

/// Where the references of an object that is there are searched.
pub(crate) fn searched<'a>(
    view: &View,
    lists: &'a SearchLists,
    owner: Serial,
    loaded: &Loaded,
) -> ScopeParts<'a>
    requires lists { AreListsOf (seen view.now) lists.now }
    requires listed { IsListed lists.now owner }
    requires there { object_of (seen view.now) owner ≡ Some loaded.now }
    ensures { ArePartsOf (seen view.now) loaded.now result }
{
    lists.scope(owner)
}

/// The definition that a relocation of `owner` against its symbol of this index is bound to, as
/// `scope_rule::choose` gives it. The lists are those of the namespace and have the owner's scope, and the
/// table of each of its objects is that object's. It takes no memory.
pub fn lookup(ns: &Namespace, lists: &SearchLists, owner: Serial, symbol: u32, copy: bool) -> Choice
    requires lists { AreListsOf (seen_in ns.now) lists.now }
    requires listed { IsListed lists.now owner }
    requires tables { HaveTables (seen_in ns.now) }
    requires owner_is_there { IsSome (object_of (seen_in ns.now) owner) }
    requires symbol_is_there { IfSome (object_of (seen_in ns.now) owner) (λ o. symbol < length o.object.symbols) }
    ensures { result ≡ choose_of (seen_in ns.now) owner symbol copy }
{
    lookup_in(&ns.view(), lists, owner, symbol, copy)
}

/// The same as [`lookup`], of what is seen of a namespace.
pub fn lookup_in(view: &View, lists: &SearchLists, owner: Serial, symbol: u32, copy: bool) -> Choice
    requires lists { AreListsOf (seen view.now) lists.now }
    requires listed { IsListed lists.now owner }
    requires tables { HaveTables (seen view.now) }
    requires owner_is_there { IsSome (object_of (seen view.now) owner) }
    requires symbol_is_there { IfSome (object_of (seen view.now) owner) (λ o. symbol < length o.object.symbols) }
    ensures { result ≡ choose_of (seen view.now) owner symbol copy }
{
    let loaded = lists.object(view, owner).unwrap();
    let entry = &loaded.object.symbols.as_slice()[symbol as usize];
    let parts = searched(view, lists, owner, loaded);
    lookup_for(view, lists, parts, loaded, symbol, entry, copy)
}

/// The choice of a relocation of an object when it is loaded, as `scope_rule::choose_reloc` gives it
/// (psABI, "Relocations"). The lists are those of the namespace and have the owner's scope, and the table
/// of each of its objects is that object's. It takes no memory.
#[tactic(auto, unfolding(scope_rule::specs::Relocation::choice_at))]
pub fn lookup_reloc(view: &View, lists: &SearchLists, owner: &Loaded, reloc: &Reloc) -> Choice
    requires lists { AreListsOf (seen view.now) lists.now }
    requires listed { IsListed lists.now owner.now.serial }
    requires tables { HaveTables (seen view.now) }
    requires owner_is_there { object_of (seen view.now) owner.now.serial ≡ Some owner.now }
    requires symbol_is_there { reloc.now.symbol < length owner.now.object.symbols }
    ensures { result ≡ choice_at (seen view.now) owner.now reloc.now }
{
    if has_no_symbol(reloc) {
        return Choice::WeakZero;
    }
    if reloc.symbol == 0 {
        return Choice::Def(owner.serial, 0);
    }
    let symbol = &owner.object.symbols.as_slice()[reloc.symbol as usize];
    let parts = searched(view, lists, owner.serial, owner);
    let copy = is_copy(reloc);
    lookup_for(view, lists, parts, owner, reloc.symbol, symbol, copy)
}
