//! The orders by name of objects in whose hash tables walks are long.

use crate::long_walks::has_long_walks;
use crate::name_order::NameOrder;
use ld_base::Loaded;
use scope_rule::{View, object_at};
use std::alloc::{AllocError, Global};
use std::collections::HashMap;

/// For so many searches at least an order is made: fewer take no time in any object that is read.
pub(crate) const MANY: usize = 64;

/// For one search at least to so many symbols: making an order takes as long as one that passes all of a few
/// hundred.
const SYMBOLS: usize = 128;

/// Those of some objects, by their places in load order.
#[derive(Drop)]
pub(crate) struct NameOrders {
    by_place: HashMap<usize, NameOrder>,
}

/// How many relocations an object has.
fn relocations(object: &Loaded) -> usize {
    let relocs = object.object.relocs.as_slice().len();
    relocs.saturating_add(object.object.plt_relocs.as_slice().len())
}

/// How many relocations the objects from a place on have.
pub(crate) fn relocations_from(view: &View, first: usize) -> usize {
    let end = view.objects.len() + view.added.len();
    let mut sum = 0usize;
    for place in first..end {
        if let Some(object) = object_at(view, place) {
            sum = sum.saturating_add(relocations(object));
        }
    }
    sum
}

/// Whether so many searches of an object are worth an order.
fn is_slow(object: &Loaded, searches: usize) -> bool {
    searches > object.object.symbols.len() as usize / SYMBOLS && has_long_walks(&object.table)
}

impl NameOrders {
    ghost use Rattle.std.specs.Prelude.{◌≡◌, ℕ, None, Some, slice_get};
    ghost use Rattle.std.specs.Option.{option_copied};
    ghost use Rattle.scope_rule.specs.Seen.{seen};
    ghost use Rattle.scope_lists.specs.NameOrders.{AreNameOrders, order_at};

    /// None.
    pub(crate) fn new(alloc: Global) -> Self
        ensures { (place : ℕ) → order_at result place ≡ None }
    {
        NameOrders {
            by_place: HashMap::new(alloc),
        }
    }

    /// That of the object at a place, if it was made.
    pub(crate) fn get(&self, place: usize) -> Option<&NameOrder>
        ensures { option_copied result ≡ order_at self.now place }
    {
        self.by_place.get(&place)
    }

    /// Makes those that are worth it for so many searches.
    pub(crate) fn add_for(
        &mut self,
        alloc: Global,
        view: &View,
        searches: usize,
    ) -> Result<(), AllocError>
        requires { AreNameOrders (seen view.now) self.old }
        ensures { AreNameOrders (seen view.now) self.new }
    {
        if searches < MANY {
            return Ok(());
        }
        for place in 0..view.objects.len() + view.added.len() {
            self.add(alloc, view, place, searches)?;
        }
        Ok(())
    }

    /// Makes that of the object at a place, if it is worth it and isn't there.
    fn add(
        &mut self,
        alloc: Global,
        view: &View,
        place: usize,
        searches: usize,
    ) -> Result<(), AllocError>
        requires { AreNameOrders (seen view.now) self.old }
        ensures { AreNameOrders (seen view.now) self.new }
    {
        if self.by_place.contains_key(&place) {
            return Ok(());
        }
        match object_at(view, place) {
            Some(object) if is_slow(object, searches) => self.add_of(alloc, view, place, object),
            _ => Ok(()),
        }
    }

    /// Makes that of this object, which stands at the place.
    fn add_of(
        &mut self,
        alloc: Global,
        view: &View,
        place: usize,
        object: &Loaded,
    ) -> Result<(), AllocError>
        requires there { slice_get (seen view.now).objects place ≡ Some object.now }
        requires orders { AreNameOrders (seen view.now) self.old }
        ensures { AreNameOrders (seen view.now) self.new }
    {
        let order = NameOrder::of(alloc, &object.object)?;
        self.by_place.insert(place, order)?;
        Ok(())
    }
}
