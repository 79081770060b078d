//! Searching objects for a reference.

ghost use Rattle.std.specs.Prelude.{◌≡◌, IfSome, Some};
ghost use Rattle.std.specs.List.{AllByRecursion};
ghost use Rattle.std.specs.Option.{option_copied};
ghost use Rattle.ld_base.specs.Pick.{pick_of};
ghost use Rattle.ld_base.specs.declared.linking.Loaded.{Loaded as Object};
ghost use Rattle.scope_rule.specs.Choose.{first_with, pick_at};
ghost use Rattle.scope_rule.specs.Seen.{Seen, seen};
ghost use Rattle.scope_lists.specs.Definers.{AreDefiners};
ghost use Rattle.scope_lists.specs.Lists.{AreListsOf, IsSearched};
ghost use Rattle.scope_lists.specs.NameOrder.{IsNameOrder};
ghost use Rattle.scope_lists.specs.Searched.{at_place, in_parts, serials_in};
ghost use Rattle.sym_hash.specs.Reached.{IsTableOf};
ghost use Rattle.sym_lookup.specs.Looking.{HaveTables, outside};
ghost use Rattle.scope_lists.specs.VersionPlaces.Places.{places_of};

use crate::sym_find::{Find, Sought, pick_ordered, rules_out};
use ld_base::{Loaded, Serial, one_pick};
use scope_lists::{Definers, NameOrder, ScopeParts, SearchLists, Searched, VersionNames};
use scope_rule::{View, linker_symbol, object_at};

/// The object at a place, if any.
fn object_of<'a>(view: &View<'a>, place: Option<usize>) -> Option<&'a Loaded>
    ensures { option_copied result ≡ at_place (seen view.now) place }
{
    object_at(view, place?)
}

/// The names of the versions of the object at a place, if there is one.
pub(crate) fn names_of(lists: &SearchLists, place: Option<usize>) -> Option<&VersionNames>
    ensures { (s : Seen) → AreListsOf s lists.now → IfSome (at_place s place) (λ o. IfSome result (λ n. n.now ≡ places_of o.object)) }
{
    match place {
        Some(place) => lists.names_at(place),
        None => None,
    }
}

/// The definitions of the object at a place by their names, if there is one and they were put in order.
fn order_of(lists: &SearchLists, place: Option<usize>) -> Option<&NameOrder>
    ensures { (s : Seen) (o : Object) → AreListsOf s lists.now → at_place s place ≡ Some o → IfSome result (λ order. IsNameOrder o.object order.now) }
{
    lists.order_at(place?)
}

/// What the object at a place has for a reference: most often the bloom filter of its own table tells that it
/// has nothing.
fn found_in(
    view: &View,
    lists: &SearchLists,
    sought: &Sought,
    place: Option<usize>,
    loaded: &Loaded,
) -> Option<u32>
    requires lists { AreListsOf (seen view.now) lists.now }
    requires there { at_place (seen view.now) place ≡ Some loaded.now }
    requires table { IsTableOf loaded.now.table loaded.now.object }
    ensures { result ≡ pick_of loaded.now.object sought.now.name sought.now.want }
{
    one_pick();
    if rules_out(&loaded.table, sought) {
        return None;
    }
    let names = names_of(lists, place);
    match order_of(lists, place) {
        Some(order) => pick_ordered(&loaded.object, names, order, sought),
        None => loaded.table.find_sought(&loaded.object, names, sought),
    }
}

/// What an object of the namespace, or the linker's own, has for a reference.
#[tactic(auto, unfolding(scope_rule::specs::Choose::pick_at))]
fn found_at(view: &View, lists: &SearchLists, sought: &Sought, searched: Searched) -> Option<u32>
    requires lists { AreListsOf (seen view.now) lists.now }
    requires tables { HaveTables (seen view.now) }
    requires searched { IsSearched (seen view.now) searched }
    ensures { result ≡ pick_at (seen view.now) sought.now.name sought.now.want searched.serial }
{
    if searched.serial == Serial::LINKER {
        return linker_symbol(sought.name());
    }
    match object_of(view, searched.place) {
        Some(loaded) => found_in(view, lists, sought, searched.place, loaded),
        None => None,
    }
}

/// The same, where nothing is looked for in the object itself if the relocation is a COPY.
fn found_outside(
    view: &View,
    lists: &SearchLists,
    sought: &Sought,
    searched: Searched,
    owner: Serial,
    copy: bool,
) -> Option<u32>
    requires lists { AreListsOf (seen view.now) lists.now }
    requires tables { HaveTables (seen view.now) }
    requires searched { IsSearched (seen view.now) searched }
    ensures { result ≡ outside copy owner (pick_at (seen view.now) sought.now.name sought.now.want) searched.serial }
{
    if copy && searched.serial == owner {
        None
    } else {
        found_at(view, lists, sought, searched)
    }
}

/// The first of these objects that has a definition, with its symbol.
fn first_searched(
    view: &View,
    lists: &SearchLists,
    sought: &Sought,
    searched: &[Searched],
    owner: Serial,
    copy: bool,
) -> Option<(Serial, u32)>
    requires lists { AreListsOf (seen view.now) lists.now }
    requires tables { HaveTables (seen view.now) }
    requires searched { AllByRecursion (IsSearched (seen view.now)) searched.now }
    ensures { result ≡ first_with (outside copy owner (pick_at (seen view.now) sought.now.name sought.now.want)) (serials_in searched.now) }
{
    for one in searched {
        if let Some(index) = found_outside(view, lists, sought, *one, owner, copy) {
            return Some((one.serial, index));
        }
    }
    None
}

/// The first of these objects that has a definition, where it is known which of them have any under a hash: those
/// alone are asked.
fn first_defining(
    view: &View,
    lists: &SearchLists,
    sought: &Sought,
    searched: &[Searched],
    definers: &Definers,
    owner: Serial,
    copy: bool,
) -> Option<(Serial, u32)>
    requires lists { AreListsOf (seen view.now) lists.now }
    requires tables { HaveTables (seen view.now) }
    requires searched { AllByRecursion (IsSearched (seen view.now)) searched.now }
    requires definers { AreDefiners (seen view.now).objects searched.now definers.now }
    ensures { result ≡ first_with (outside copy owner (pick_at (seen view.now) sought.now.name sought.now.want)) (serials_in searched.now) }
{
    one_pick();
    let mut from = 0;
    while let Some(place) = definers.next(sought.gnu(), from) {
        let one = &searched[place];
        if let Some(index) = found_outside(view, lists, sought, *one, owner, copy) {
            return Some((one.serial, index));
        }
        from = place + 1;
    }
    None
}

/// The same of the global list of a scope, whether or not that is known of it.
fn first_in_global(
    view: &View,
    lists: &SearchLists,
    sought: &Sought,
    parts: ScopeParts,
    owner: Serial,
    copy: bool,
) -> Option<(Serial, u32)>
    requires lists { AreListsOf (seen view.now) lists.now }
    requires tables { HaveTables (seen view.now) }
    requires searched { AllByRecursion (IsSearched (seen view.now)) parts.global.now }
    requires definers { IfSome parts.definers (λ d. AreDefiners (seen view.now).objects parts.global.now d.now) }
    ensures { result ≡ first_with (outside copy owner (pick_at (seen view.now) sought.now.name sought.now.want)) (serials_in parts.entry.global.now) }
{
    match parts.definers {
        Some(definers) => first_defining(view, lists, sought, parts.global, definers, owner, copy),
        None => first_searched(view, lists, sought, parts.global, owner, copy),
    }
}

/// The same of the parts of a scope, one after another.
pub(crate) fn first_in_parts(
    view: &View,
    lists: &SearchLists,
    sought: &Sought,
    parts: ScopeParts,
    owner: Serial,
    copy: bool,
) -> Option<(Serial, u32)>
    requires lists { AreListsOf (seen view.now) lists.now }
    requires tables { HaveTables (seen view.now) }
    requires searched { AllByRecursion (IsSearched (seen view.now)) (in_parts parts) }
    requires definers { IfSome parts.definers (λ d. AreDefiners (seen view.now).objects parts.global.now d.now) }
    ensures { result ≡ first_with (outside copy owner (pick_at (seen view.now) sought.now.name sought.now.want)) (serials_in (in_parts parts.entry)) }
{
    let before = first_searched(view, lists, sought, parts.before, owner, copy);
    if before.is_some() {
        return before;
    }
    let global = first_in_global(view, lists, sought, parts, owner, copy);
    if global.is_some() {
        return global;
    }
    first_searched(view, lists, sought, parts.after, owner, copy)
}
