//! Where the objects of a namespace stand.

ghost use Rattle.std.specs.Prelude.{◌≡◌, ◌++◌, OnOk};
ghost use Rattle.std.specs.List.{slice_get};
ghost use Rattle.std.specs.List.Sorted.{IsNonDecreasing};
ghost use Rattle.std.specs.Option.{option_copied};
ghost use Rattle.scope_rule.specs.Seen.{seen};
ghost use Rattle.scope_rule.specs.Places.{place_in, serials};

use crate::view::{View, is_dying};
use ld_base::{Loaded, Serial};
use std::alloc::{AllocError, Global};
use std::marker::Model;

/// The serials of objects in load order, by which the place of each is found: by halves where they ascend,
/// as those of a history do, and else one after another. Contracts see the serials.
#[derive(Drop)]
pub struct Places {
    serials: Vec<Serial>,
    ascends: bool,
}

impl Model for Places {
    ghost use Rattle.std.specs.Prelude.{◌≡◌, ℕ, List, true};
    ghost use Rattle.std.specs.List.Sorted.{IsNonDecreasing};

    ghost Value = { List ℕ };

    ghost view = { λ p. p.serials.items };

    ghost invariant = { λ p. p.ascends ≡ true → IsNonDecreasing p.serials.items };
}

/// The object at a place in load order.
pub fn object_at<'a>(view: &View<'a>, place: usize) -> Option<&'a Loaded>
    ensures { option_copied result ≡ slice_get (seen view.now).objects place }
{
    if place < view.objects.len() {
        view.objects.get(place)
    } else {
        view.added.get(place - view.objects.len())
    }
}

/// Puts the serials of these objects at the end.
fn append_serials(noted: &mut Vec<Serial>, objects: &[Loaded]) -> Result<(), AllocError>
    ensures { OnOk result (noted.new.items ≡ noted.old.items ++ serials objects.now) }
{
    for object in objects {
        noted.push(object.serial)?;
    }
    Ok(())
}

/// The first place of a serial among ones that ascend.
fn place_by_halves(noted: &[Serial], serial: Serial) -> Option<usize>
    requires { IsNonDecreasing noted.now }
    ensures { result ≡ place_in noted.now serial }
{
    let number = serial.number();
    let place = noted.partition_point(|other| other.number() < number);
    let found = noted.get(place)?;
    if *found == serial { Some(place) } else { None }
}

impl Places {
    ghost use Rattle.std.specs.Prelude.{◌≡◌, IfOk};
    ghost use Rattle.std.specs.Option.{option_copied};
    ghost use Rattle.scope_rule.specs.Loading.{is_dying_at, object_of};
    ghost use Rattle.scope_rule.specs.Seen.{seen};
    ghost use Rattle.scope_rule.specs.Places.{place_in, serials_of};

    /// Those of what is seen of a namespace.
    ///
    /// # Errors
    ///
    /// Want of memory.
    pub fn of(alloc: Global, view: &View) -> Result<Self, AllocError>
        ensures { IfOk result (λ places. places ≡ serials_of (seen view.now)) }
    {
        let mut serials = Vec::with_capacity(alloc, view.objects.len() + view.added.len())?;
        append_serials(&mut serials, view.objects)?;
        append_serials(&mut serials, view.added)?;
        let ascends = serials.as_slice().is_sorted();
        Ok(Places { serials, ascends })
    }

    /// The place of the first object with a serial, if there is one.
    pub fn get(&self, serial: Serial) -> Option<usize>
        ensures { result ≡ place_in self.now serial }
    {
        let serials = self.serials.as_slice();
        if self.ascends {
            place_by_halves(serials, serial)
        } else {
            serials.iter().position(|other| *other == serial)
        }
    }

    /// The object of the namespace with a serial.
    pub fn object<'a>(&self, view: &View<'a>, serial: Serial) -> Option<&'a Loaded>
        requires { self.now ≡ serials_of (seen view.now) }
        ensures { option_copied result ≡ object_of (seen view.now) serial }
    {
        let place = self.get(serial)?;
        object_at(view, place)
    }

    /// Whether there is such an object and its destructors run.
    pub fn is_dying(&self, view: &View, serial: Serial) -> bool
        requires { self.now ≡ serials_of (seen view.now) }
        ensures { result ≡ is_dying_at (seen view.now) serial }
    {
        match self.object(view, serial) {
            Some(object) => is_dying(object),
            None => false,
        }
    }
}
