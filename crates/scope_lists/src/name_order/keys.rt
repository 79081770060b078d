//! What the definitions of an object are put in the order of.

ghost use Rattle.std.specs.Prelude.{◌≡◌, IfSome};
ghost use Rattle.std.specs.Cmp.Lexicographic.{slice_cmp};
ghost use Rattle.std.specs.Option.{option_copied, option_to_list};
ghost use Rattle.std.specs.Ordering.{nat_cmp};
ghost use Rattle.scope_lists.specs.NameOrder.{name_at, version_at};
ghost use Rattle.scope_lists.specs.VersionPlaces.Places.{places_of};

use crate::version_places::{VersionNames, version_name};
use ld_base::Object;
use std::alloc::AllocError;
use std::cmp::Ordering;
use std::marker::Model;

/// The name of a definition, with that of its version where both are asked. Contracts see the one or two names.
#[derive(Drop)]
pub(super) struct Key<'a> {
    pub(super) name: &'a [u8],
    pub(super) version: Option<&'a [u8]>,
}

impl<'a> Model for Key<'a> {
    ghost use Rattle.std.specs.Prelude.{List, ℕ, ◌∷◌};
    ghost use Rattle.std.specs.Option.{option_copied, option_to_list};

    ghost Value = { List (List ℕ) };

    ghost view = { λ k. k.name.now ∷ option_to_list (option_copied k.version) };
}

/// What the definitions of an object are put in the order of.
#[derive(Clone, Copy)]
pub(super) enum Keys<'a> {
    /// Their names.
    Names(&'a Object),
    /// Their names, then those of their versions, which are found in one step where they are known.
    Versions(&'a Object, Option<&'a VersionNames>),
}

/// The name of the symbol at an index.
pub(crate) fn name_at(object: &Object, index: u32) -> &[u8]
    ensures { result.now ≡ name_at object.now index }
{
    match object.symbols.as_slice().get(index as usize) {
        Some(symbol) => symbol.name.as_bytes(),
        None => &[],
    }
}

/// The name of its version, if it has one.
fn version_at<'a>(object: &'a Object, names: Option<&VersionNames>, index: u32) -> Option<&'a [u8]>
    requires { IfSome names (λ n. n.now ≡ places_of object.now) }
    ensures { option_copied result ≡ version_at object.now index }
{
    let symbol = object.symbols.as_slice().get(index as usize)?;
    let version = version_name(object, names, symbol.version_index())?;
    Some(version.as_bytes())
}

/// How the names of versions compare: none comes before any.
fn compare_versions(one: Option<&[u8]>, other: Option<&[u8]>) -> Ordering
    ensures { result ≡ slice_cmp (slice_cmp nat_cmp) (option_to_list (option_copied one.entry)) (option_to_list (option_copied other.entry)) }
{
    match (one, other) {
        (Some(one), Some(other)) => one.cmp(other),
        (Some(_), None) => Ordering::Greater,
        (None, Some(_)) => Ordering::Less,
        (None, None) => Ordering::Equal,
    }
}

impl<'a> Key<'a> {
    ghost use Rattle.std.specs.Prelude.{◌≡◌};
    ghost use Rattle.std.specs.Cmp.Lexicographic.{slice_cmp};
    ghost use Rattle.std.specs.Ordering.{nat_cmp};

    /// How two compare.
    fn compare(&self, other: &Key) -> Ordering
        ensures { result ≡ slice_cmp (slice_cmp nat_cmp) self.now other.now }
    {
        self.name
            .cmp(other.name)
            .then(compare_versions(self.version, other.version))
    }
}

impl<'a> Keys<'a> {
    ghost use Rattle.std.specs.Prelude.{◌≡◌, Some, not, filter, IfOk};
    ghost use Rattle.std.specs.Cmp.Lexicographic.{slice_cmp};
    ghost use Rattle.std.specs.List.Sorted.{IsSortedByKey};
    ghost use Rattle.std.specs.Ordering.{is_gt, is_lt, nat_cmp};
    ghost use Rattle.scope_lists.specs.NameOrder.{IsOrder, KnowsVersions, has_key, key_of};
    ghost use Rattle.scope_lists.specs.declared.name_order.keys.Keys.TheVariants as keys;

    /// Their names and those of their versions, which are known.
    pub(super) fn versions(object: &'a Object, names: &'a VersionNames) -> Self
        ensures { result ≡ keys.Versions object.entry (Some names.entry) }
    {
        Keys::Versions(object, Some(names))
    }

    /// That of the symbol at an index.
    fn at(self, index: u32) -> Key<'a>
        requires { KnowsVersions self }
        ensures { result ≡ key_of self.entry index }
    {
        match self {
            Keys::Names(object) => Key {
                name: name_at(object, index),
                version: None,
            },
            Keys::Versions(object, names) => Key {
                name: name_at(object, index),
                version: version_at(object, names, index),
            },
        }
    }

    /// How that of the symbol at an index compares with another.
    fn compare(self, index: u32, key: &Key) -> Ordering
        requires { KnowsVersions self }
        ensures { result ≡ slice_cmp (slice_cmp nat_cmp) (key_of self.entry index) key.now }
    {
        self.at(index).compare(key)
    }

    /// Whether it comes before another.
    fn is_before(self, index: u32, key: &Key) -> bool
        requires { KnowsVersions self }
        ensures { result ≡ is_lt (slice_cmp (slice_cmp nat_cmp) (key_of self.entry index) key.now) }
    {
        self.compare(index, key).is_lt()
    }

    /// Whether it doesn't come behind it.
    fn is_not_behind(self, index: u32, key: &Key) -> bool
        requires { KnowsVersions self }
        ensures { result ≡ not (is_gt (slice_cmp (slice_cmp nat_cmp) (key_of self.entry index) key.now)) }
    {
        !self.compare(index, key).is_gt()
    }

    /// These indexes in their order, those of one key as they stand.
    pub(super) fn order(self, mut indexes: Vec<u32>) -> Result<Vec<u32>, AllocError>
        requires { KnowsVersions self }
        ensures { IfOk result (λ order. IsOrder (key_of self.entry) indexes.items order.items) }
    {
        indexes.sort_by(|one, other| self.compare(*one, &self.at(*other)))?;
        Ok(indexes)
    }

    /// Those of a key among indexes in this order.
    pub(super) fn run<'b>(self, indexes: &'b [u32], key: &Key) -> &'b [u32]
        requires versions { KnowsVersions self }
        requires sorted { IsSortedByKey (key_of self) (slice_cmp (slice_cmp nat_cmp)) indexes.now }
        ensures { result.now ≡ filter (has_key (key_of self.entry) key.now) indexes.now }
    {
        let start = indexes.partition_point(|index| self.is_before(*index, key));
        let (_, rest) = indexes.split_at(start);
        let end = rest.partition_point(|index| self.is_not_behind(*index, key));
        let (found, _) = rest.split_at(end);
        found
    }
}
