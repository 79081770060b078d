//! Finding the definitions of a name, or of a name and a version, by their order, whatever the hash tables of
//! their object are.

pub(crate) mod keys;

ghost use Rattle.std.specs.Prelude.{◌≡◌, ◌==◌, filter, IfOk};
ghost use Rattle.scope_lists.specs.NameOrder.{exported, exports, is_offered, is_unversioned_at};

use crate::name_order::keys::{Key, Keys};
use crate::version_places::VersionNames;
use ld_base::{Object, Symbol};
use std::alloc::{AllocError, Global};
use std::marker::Model;

/// The version word of a definition without a version, which every reference with a version takes (VER_NDX_GLOBAL;
/// Drepper, "ELF Symbol Versioning").
const UNVERSIONED: u16 = 1;

/// The definitions of an object in the order of their names. They tell the indexes of symbols and hold no name,
/// so that they are asked together with the object. Contracts see these indexes.
#[derive(Drop)]
pub struct NameOrder {
    by_name: Vec<u32>,
    /// Those of one name in the order of the names of their versions; none where the object has no versions.
    by_version: Vec<u32>,
    /// Those without a version, by name; none where the object has no versions.
    unversioned: Vec<u32>,
}

impl Model for NameOrder {
    ghost use Rattle.scope_lists.specs.NameOrder.{Orders};

    ghost Value = { Orders };

    ghost view = { λ o. record { names = o.by_name.items; versions = o.by_version.items; unversioned = o.unversioned.items } };
}

/// Whether a symbol is a definition that other objects may ask for by its name.
fn is_offered(object: &Object, symbol: &Symbol) -> bool
    ensures { result ≡ is_offered object.now symbol.now }
{
    symbol.is_visible_definition() && (!object.has_versym || symbol.version_index() != 0)
}

/// The same of the symbol at an index, which the object may export.
pub(crate) fn is_offered_at(object: &Object, index: u32) -> bool
    ensures { result ≡ exports object.now (is_offered object.now) index }
{
    match object.symbols.as_slice().get(index as usize) {
        Some(symbol) => object.first_exported <= index && is_offered(object, symbol),
        None => false,
    }
}

/// The indexes of those, ascending.
fn offered(alloc: Global, object: &Object) -> Result<Vec<u32>, AllocError>
    ensures { IfOk result (λ indexes. indexes.items ≡ exported object.now (is_offered object.now)) }
{
    (0..object.symbols.len())
        .filter(|index| is_offered_at(object, *index))
        .collect(alloc)
}

/// Whether the symbol at an index has no version.
fn is_unversioned_at(object: &Object, index: u32) -> bool
    ensures { result ≡ is_unversioned_at object.now index }
{
    match object.symbols.as_slice().get(index as usize) {
        Some(symbol) => symbol.version == UNVERSIONED,
        None => false,
    }
}

/// Those of these indexes whose symbols have none.
fn unversioned(alloc: Global, object: &Object, offered: &[u32]) -> Result<Vec<u32>, AllocError>
    ensures { IfOk result (λ indexes. indexes.items ≡ filter (is_unversioned_at object.now) offered.now) }
{
    offered
        .iter()
        .copied()
        .filter(|index| is_unversioned_at(object, *index))
        .collect(alloc)
}

impl NameOrder {
    ghost use Rattle.std.specs.Prelude.{◌≡◌, true, IfOk, IfSome};
    ghost use Rattle.scope_lists.specs.NameOrder.{IsNameOrder, offers_of, unversioned_of, versions_of};
    ghost use Rattle.scope_lists.specs.VersionPlaces.Places.{places_of};

    /// That of an object.
    ///
    /// # Errors
    ///
    /// Want of memory.
    pub(crate) fn of(alloc: Global, object: &Object) -> Result<Self, AllocError>
        ensures { IfOk result (IsNameOrder object.now) }
    {
        let offered = offered(alloc, object)?;
        if !object.has_versym {
            return Ok(NameOrder {
                by_name: Keys::Names(object).order(offered)?,
                by_version: Vec::new(alloc),
                unversioned: Vec::new(alloc),
            });
        }
        let names = VersionNames::of(alloc, object)?;
        let by_name = Vec::from_slice(alloc, offered.as_slice())?;
        let unversioned = unversioned(alloc, object, offered.as_slice())?;
        Ok(NameOrder {
            by_name: Keys::Names(object).order(by_name)?,
            by_version: Keys::versions(object, &names).order(offered)?,
            unversioned: Keys::Names(object).order(unversioned)?,
        })
    }

    /// The indexes of the definitions of a name in the object whose order this is, ascending.
    pub fn offers(&self, object: &Object, name: &[u8]) -> &[u32]
        requires { IsNameOrder object.now self.now }
        ensures { result.now ≡ offers_of object.now name.now }
    {
        let key = Key {
            name,
            version: None,
        };
        Keys::Names(object).run(self.by_name.as_slice(), &key)
    }

    /// The same of those whose version has a name, where the object has versions (Drepper, "ELF Symbol
    /// Versioning"). The names of its versions may be known: each is then found in one step.
    pub fn offers_of_version(
        &self,
        object: &Object,
        names: Option<&VersionNames>,
        name: &[u8],
        version: &[u8],
    ) -> &[u32]
        requires versions { object.now.has_versym ≡ true }
        requires names { IfSome names (λ n. n.now ≡ places_of object.now) }
        requires order { IsNameOrder object.now self.now }
        ensures { result.now ≡ versions_of object.now name.now version.now }
    {
        let key = Key {
            name,
            version: Some(version),
        };
        Keys::Versions(object, names).run(self.by_version.as_slice(), &key)
    }

    /// The same of those without a version, which every reference with a version takes: their version word is 1.
    pub fn unversioned_offers(&self, object: &Object, name: &[u8]) -> &[u32]
        requires versions { object.now.has_versym ≡ true }
        requires order { IsNameOrder object.now self.now }
        ensures { result.now ≡ unversioned_of object.now name.now }
    {
        let key = Key {
            name,
            version: None,
        };
        Keys::Names(object).run(self.unversioned.as_slice(), &key)
    }
}
