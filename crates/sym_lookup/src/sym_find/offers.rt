//! Which of the definitions of a name a reference takes, where they stand in order.

ghost use Rattle.std.specs.Prelude.{◌≡◌, ◌==◌, true, None, count_by, if◌then◌else◌, IfSome};
ghost use Rattle.std.specs.List.{find};
ghost use Rattle.ld_base.specs.Pick.{pick_of};
ghost use Rattle.scope_lists.specs.NameOrder.{IsNameOrder, offers_of};
ghost use Rattle.scope_lists.specs.VersionPlaces.Places.{places_of};
ghost use Rattle.sym_lookup.specs.SymFind.Offers.{in_sight_at, is_wanted_at};
ghost use Rattle.sym_lookup.specs.SymFind.Reference.{want_as};

use crate::sym_find::best::least;
use crate::sym_find::finding::is_wanted_at;
use crate::sym_find::reference::{Asked, Sought};
use ld_base::{Object, Want, one_pick};
use scope_lists::{NameOrder, VersionNames};

/// The first definition that a relocation with a version takes: one of this version, or one without a version.
fn first_of_version(
    object: &Object,
    names: Option<&VersionNames>,
    order: &NameOrder,
    name: &[u8],
    version: &[u8],
) -> Option<u32>
    requires versions { object.now.has_versym ≡ true }
    requires names { IfSome names (λ n. n.now ≡ places_of object.now) }
    requires order { IsNameOrder object.now order.now }
    ensures { result ≡ find (is_wanted_at object.now (Want.Version version.now)) (offers_of object.now name.now) }
{
    let just = first_of_just(object, names, order, name, version);
    match order.unversioned_offers(object, name).first() {
        Some(unversioned) => least(just, *unversioned),
        None => just,
    }
}

/// The first that dlvsym takes.
fn first_of_just(
    object: &Object,
    names: Option<&VersionNames>,
    order: &NameOrder,
    name: &[u8],
    version: &[u8],
) -> Option<u32>
    requires versions { object.now.has_versym ≡ true }
    requires names { IfSome names (λ n. n.now ≡ places_of object.now) }
    requires order { IsNameOrder object.now order.now }
    ensures { result ≡ find (is_wanted_at object.now (Want.Dlvsym version.now)) (offers_of object.now name.now) }
{
    let offers = order.offers_of_version(object, names, name, version);
    offers.first().copied()
}

/// The first whose version is one that is asked for.
fn first_wanted(
    object: &Object,
    names: Option<&VersionNames>,
    order: &NameOrder,
    name: &[u8],
    asked: Asked,
) -> Option<u32>
    requires versions { object.now.has_versym ≡ true }
    requires names { IfSome names (λ n. n.now ≡ places_of object.now) }
    requires order { IsNameOrder object.now order.now }
    ensures { result ≡ find (is_wanted_at object.now (want_as asked.entry)) (offers_of object.now name.now) }
{
    match asked {
        Asked::Version(version) => first_of_version(object, names, order, name, version),
        Asked::Plain | Asked::Dlsym => order
            .offers(object, name)
            .iter()
            .copied()
            .find(|index| is_wanted_at(object, names, asked, *index)),
        Asked::Dlvsym(version) => first_of_just(object, names, order, name, version),
    }
}

/// Whether the definition at an index isn't hidden.
fn in_sight_at(object: &Object, index: u32) -> bool
    ensures { result ≡ in_sight_at object.now index }
{
    match object.symbols.as_slice().get(index as usize) {
        Some(symbol) => !symbol.is_hidden_version(),
        None => false,
    }
}

/// The first of these that isn't hidden.
fn first_in_sight(object: &Object, offers: &[u32]) -> Option<u32>
    ensures { result ≡ find (in_sight_at object.now) offers.now }
{
    offers
        .iter()
        .copied()
        .find(|index| in_sight_at(object, *index))
}

/// The only one that isn't hidden.
fn only_in_sight(object: &Object, offers: &[u32]) -> Option<u32>
    ensures { result ≡ (if count_by (in_sight_at object.now) offers.now == 1 then find (in_sight_at object.now) offers.now else None) }
{
    let count = offers
        .iter()
        .filter(|index| in_sight_at(object, **index))
        .count();
    if count == 1 {
        first_in_sight(object, offers)
    } else {
        None
    }
}

/// The definition that a reference takes in an object whose order this is, whatever its hash tables are.
pub(crate) fn pick_ordered(
    object: &Object,
    names: Option<&VersionNames>,
    order: &NameOrder,
    sought: &Sought,
) -> Option<u32>
    requires names { IfSome names (λ n. n.now ≡ places_of object.now) }
    requires order { IsNameOrder object.now order.now }
    ensures { result ≡ pick_of object.now sought.now.name sought.now.want }
{
    one_pick();
    let name = sought.name();
    if !object.has_versym {
        return order.offers(object, name).first().copied();
    }
    let asked = sought.asked();
    match first_wanted(object, names, order, name, asked) {
        Some(index) => Some(index),
        None if asked.names_no_version() => only_in_sight(object, order.offers(object, name)),
        None => None,
    }
}
