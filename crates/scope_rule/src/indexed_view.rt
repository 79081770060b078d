//! What a search sees of a namespace, with the places of its objects.

use crate::places::Places;
use crate::view::View;
use ld_base::{Loaded, Serial};
use std::alloc::{AllocError, Global};
use std::marker::Model;

/// A [`View`] with the [`Places`] of its objects, by which each is found by its serial. To make it takes time and
/// memory in proportion to the objects that are seen. Contracts see what is seen.
#[derive(Drop)]
pub struct IndexedView<'a> {
    view: View<'a>,
    places: Places,
}

impl<'a> Model for IndexedView<'a> {
    ghost use Rattle.std.specs.Prelude.{◌≡◌};
    ghost use Rattle.scope_rule.specs.Places.{serials_of};
    ghost use Rattle.scope_rule.specs.Seen.{Seen, seen};

    ghost Value = { Seen };

    ghost view = { λ i. seen i.view };

    ghost invariant = { λ i. i.places ≡ serials_of (seen i.view) };
}

impl<'a> IndexedView<'a> {
    ghost use Rattle.std.specs.Prelude.{◌≡◌, IfOk};
    ghost use Rattle.std.specs.Option.{option_copied};
    ghost use Rattle.scope_rule.specs.Loading.{is_dying_at, object_of};
    ghost use Rattle.scope_rule.specs.Seen.{seen};

    /// A view with the places of its objects.
    ///
    /// # Errors
    ///
    /// Want of memory.
    pub fn of(alloc: Global, view: &View<'a>) -> Result<Self, AllocError>
        ensures { IfOk result (λ indexed. indexed ≡ seen view.now) }
    {
        let places = Places::of(alloc, view)?;
        Ok(IndexedView {
            view: *view,
            places,
        })
    }

    /// The view by itself.
    pub fn view(&self) -> View<'a>
        ensures { seen result ≡ self.now }
    {
        self.view
    }

    /// The object with a serial, if it is there.
    pub fn object(&self, serial: Serial) -> Option<&'a Loaded>
        ensures { option_copied result ≡ object_of self.now serial }
    {
        self.places.object(&self.view, serial)
    }

    /// Whether there is such an object and its destructors run.
    pub fn is_dying(&self, serial: Serial) -> bool
        ensures { result ≡ is_dying_at self.now serial }
    {
        self.places.is_dying(&self.view, serial)
    }
}
