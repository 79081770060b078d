//! The new objects of a load, found by path and by name.

ghost use Rattle.std.specs.Prelude.{◌≡◌, ◌==◌, ◌++◌, ◌∷◌, [], length, OnErr, OnOk};
ghost use Rattle.scope_rule.specs.Finding.{at_path, at_soname};
ghost use Rattle.load_walk.specs.Places.{OfArrivals};

use crate::places::ObjectPlaces;
use ld_base::Sequence;
use scope_rule::Arrival;
use std::alloc::{AllocError, Global};
use std::marker::Model;

/// New objects, in the order in which they came, with their places: to scan them for each name would take the
/// product of two counts that a folder chooses. Contracts see the objects.
#[derive(Drop)]
pub struct Arrivals {
    objects: Sequence<Arrival>,
    places: ObjectPlaces,
}

impl Model for Arrivals {
    ghost use Rattle.std.specs.Prelude.{List};
    ghost use Rattle.scope_rule.specs.declared.arrival.Arrival.{Arrival};
    ghost use Rattle.load_walk.specs.Places.{OfArrivals};

    ghost Value = { List Arrival };

    ghost view = { λ a. a.objects };

    ghost invariant = { λ a. OfArrivals a.objects a.places };
}

/// Puts an object at the end, and notes its place.
fn add(
    alloc: Global,
    objects: &mut Sequence<Arrival>,
    places: &mut ObjectPlaces,
    arrival: Arrival,
) -> Result<(), AllocError>
    requires { OfArrivals objects.old places.old }
    ensures objects { OnOk result (objects.new ≡ objects.old ++ arrival ∷ []) }
    ensures places { OnOk result (OfArrivals objects.new places.new) }
{
    places.add(
        alloc,
        arrival.path.as_bytes(),
        &arrival.object,
        objects.len(),
    )?;
    objects.push(arrival)
}

impl Arrivals {
    /// No object yet.
    pub fn new(alloc: Global) -> Self
        ensures { result ≡ [] }
    {
        Arrivals {
            objects: Sequence::new(alloc),
            places: ObjectPlaces::new(alloc),
        }
    }

    /// How many objects there are.
    pub fn len(&self) -> usize
        ensures { result ≡ length self.now }
    {
        self.objects.len()
    }

    /// Whether there is no object.
    pub fn is_empty(&self) -> bool
        ensures { result ≡ (length self.now == 0) }
    {
        self.objects.is_empty()
    }

    /// The place of the first object with this path.
    pub fn at_path(&self, path: &[u8]) -> Option<usize>
        ensures { result ≡ at_path self.now path.now }
    {
        self.places.at_path(path)
    }

    /// The place of the first object with this name of its own.
    pub fn at_soname(&self, name: &[u8]) -> Option<usize>
        ensures { result ≡ at_soname self.now name.now }
    {
        self.places.at_soname(name)
    }

    /// Puts an object at the end.
    ///
    /// # Errors
    ///
    /// Want of memory. No object is left then, since a place may have been noted at which none stands.
    pub fn push(&mut self, alloc: Global, arrival: Arrival) -> Result<(), AllocError>
        ensures ok { OnOk result (self.new ≡ self.old ++ arrival ∷ []) }
        ensures err { OnErr result (self.new ≡ []) }
    {
        let added = add(alloc, &mut self.objects, &mut self.places, arrival);
        if added.is_err() {
            *self = Self::new(alloc);
        }
        added
    }

    /// The objects as a vector.
    pub fn into_vec(self) -> Vec<Arrival>
        ensures { result.items ≡ self }
    {
        let Arrivals { objects, places: _ } = self;
        objects.into_vec()
    }
}
