//! Which objects of a list have definitions under a hash, in one look-up for all of them.

ghost use Rattle.std.specs.Prelude.{◌≡◌, ◌+◌, ◌<◌, ◌≤◌, ◌==◌, length, IfOk, OnOk};
ghost use Rattle.std.specs.List.{list_any};
ghost use Rattle.std.specs.Option.{option_copied};
ghost use Rattle.scope_rule.specs.Seen.{seen};
ghost use Rattle.scope_lists.specs.Definers.{AreDefinersBelow, Defines, DefinesMore};
ghost use Rattle.scope_lists.specs.Searched.{at_place};

use crate::name_order::is_offered_at;
use crate::name_order::keys::name_at;
use crate::name_orders::MANY;
use crate::searched::Searched;
use ld_base::{Loaded, Object, Serial};
use scope_rule::{View, object_at};
use std::alloc::{AllocError, Global};
use std::marker::Model;
use sym_hash::gnu_hash;

/// Making an index passes each symbol of the objects of a list: that takes as long as to ask so many objects for
/// a name.
const ASKED: usize = 16;

/// How many places of a list a hash may have.
const PLACES: u64 = 0x1_0000_0000;

/// The object at a place of the list has a definition under a hash.
#[derive(Clone, Copy)]
pub(crate) struct Definer {
    hash: u32,
    place: u32,
}

/// Which objects of a list have definitions under a hash that others may ask for (the GNU hash table). Contracts
/// see the hashes with the places of these objects.
#[derive(Drop)]
pub struct Definers {
    entries: Vec<Definer>,
}

impl Model for Definers {
    ghost use Rattle.std.specs.Prelude.{List};
    ghost use Rattle.scope_lists.specs.declared.definers.Definer.{Definer};

    ghost Value = { List Definer };

    ghost view = { λ definers. definers.entries.items };
}

/// The object of an entry, if it is there.
fn object_of<'a>(view: &View<'a>, entry: Searched) -> Option<&'a Loaded>
    ensures { option_copied result ≡ at_place (seen view.now) entry.place }
{
    object_at(view, entry.place?)
}

/// How many symbols the objects of a list have.
fn symbols_of(view: &View, list: &[Searched]) -> usize {
    let mut sum = 0usize;
    for entry in list {
        if let Some(loaded) = object_of(view, *entry) {
            sum = sum.saturating_add(loaded.object.symbols.len() as usize);
        }
    }
    sum
}

/// Whether so many searches of a list are worth an index of it.
pub(crate) fn is_worth_it(view: &View, list: &[Searched], searches: usize) -> bool {
    searches >= MANY && searches.saturating_mul(list.len()) / ASKED > symbols_of(view, list)
}

/// Whether the linker's own is in a list: it has no object, and answers to names of its own.
fn has_linker(list: &[Searched]) -> bool
    ensures { result ≡ list_any (λ x. x.serial == 0) list.now }
{
    list.iter().any(|entry| entry.serial == Serial::LINKER)
}

/// Puts an object, which stands at a place of the list, at the end for each of its definitions.
fn append_object(object: &Object, place: u32, definers: &mut Vec<Definer>) -> Result<(), AllocError>
    ensures { OnOk result (DefinesMore (Defines object.now) place definers.old.items definers.new.items) }
{
    for index in 0..object.symbols.len() {
        if is_offered_at(object, index) {
            let hash = gnu_hash(name_at(object, index));
            definers.push(Definer { hash, place })?;
        }
    }
    Ok(())
}

/// The same of the object at a place of the list, if it is there.
fn append_at(
    view: &View,
    list: &[Searched],
    place: u32,
    definers: &mut Vec<Definer>,
) -> Result<(), AllocError>
    requires place { place < length list.now }
    requires definers { AreDefinersBelow place (seen view.now).objects list.now definers.old.items }
    ensures { OnOk result (AreDefinersBelow (place + 1) (seen view.now).objects list.now definers.new.items) }
{
    match object_of(view, list[place as usize]) {
        Some(loaded) => append_object(&loaded.object, place, definers),
        None => Ok(()),
    }
}

/// Those of the first so many objects of a list.
fn definers_of(
    alloc: Global,
    view: &View,
    list: &[Searched],
    count: u32,
) -> Result<Vec<Definer>, AllocError>
    requires { count ≤ length list.now }
    ensures { IfOk result (λ definers. AreDefinersBelow count (seen view.now).objects list.now definers.items) }
{
    let mut definers = Vec::new(alloc);
    for place in 0..count {
        append_at(view, list, place, &mut definers)?;
    }
    Ok(definers)
}

impl Definer {
    ghost use Rattle.std.specs.Prelude.{◌≡◌};
    ghost use Rattle.scope_lists.specs.Definers.{rank};

    /// Where it stands among others: by its hash, and then by its place.
    fn rank(&self) -> u64
        ensures { result ≡ rank self.now }
    {
        u64::from(self.hash) * PLACES + u64::from(self.place)
    }
}

impl Definers {
    ghost use Rattle.std.specs.Prelude.{◌≡◌, List, IfOk, IfSome};
    ghost use Rattle.std.specs.List.Sorted.{IsNonDecreasingBy};
    ghost use Rattle.ld_base.specs.declared.linking.Loaded.{Loaded as LoadedObject};
    ghost use Rattle.scope_rule.specs.Seen.{seen};
    ghost use Rattle.scope_lists.specs.Definers.{AreDefiners, IsFirstFrom, IsNextDefiner, rank};
    ghost use Rattle.scope_lists.specs.declared.searched.Searched.{Searched as Entry};

    /// Those of a list of objects of a namespace; none where the list is too long, or the linker is in it. A search
    /// goes without them then, as it may with any list.
    pub(crate) fn of(
        alloc: Global,
        view: &View,
        list: &[Searched],
    ) -> Result<Option<Self>, AllocError>
        ensures { IfOk result (λ found. IfSome found (AreDefiners (seen view.now).objects list.now)) }
    {
        let Ok(count) = u32::try_from(list.len()) else {
            return Ok(None);
        };
        if has_linker(list) {
            return Ok(None);
        }
        let mut entries = definers_of(alloc, view, list, count)?;
        entries.sort_unstable_by_key(|entry| entry.rank());
        Ok(Some(Definers { entries }))
    }

    /// The first place of the list, from this one on, at which an object has a definition under a hash, of any
    /// list whose definers these are. It takes a few steps, however many there are.
    pub fn next(&self, hash: u32, from: usize) -> Option<usize>
        ensures { (objects : List LoadedObject) (list : List Entry) → AreDefiners objects list self.now → IsNextDefiner objects list hash from result }
    {
        let Ok(place) = u32::try_from(from) else {
            return None;
        };
        let found = self.first_from(&Definer { hash, place })?;
        if found.hash == hash {
            Some(found.place as usize)
        } else {
            None
        }
    }

    /// The first of them that doesn't rank before another, where they are in order.
    fn first_from(&self, wanted: &Definer) -> Option<Definer>
        ensures { IsNonDecreasingBy rank self.now → IsFirstFrom (rank wanted.now) self.now result }
    {
        let entries = self.entries.as_slice();
        let start = entries.partition_point(|entry| entry.rank() < wanted.rank());
        entries.get(start).copied()
    }
}
