//! All closings that wait.

ghost use Rattle.std.specs.Prelude.{◌≡◌, ◌<◌, [], ◌∷◌, ◌++◌, filter, find, length, map, not, slice_get, Some, None, IfNone, IfSome, OnOk, OnErr};
ghost use Rattle.link_spaces.specs.PendingClosingsPart.Pending.{HaveRoomOf, is_of, with_more};

use crate::pending_closings::Pending;
use ld_base::{HartId, Serial};
use std::alloc::{AllocError, Global};
use std::marker::Model;

/// Closings whose objects aren't unmapped yet, in order. Contracts see the list, with the room for more.
#[derive(Drop)]
pub struct PendingClosings {
    closings: Vec<Pending>,
}

impl Model for PendingClosings {
    ghost use Rattle.std.specs.Prelude.{◌-◌};
    ghost use Rattle.std.specs.Vec.{vec_capacity, vec_len};
    ghost use Rattle.link_spaces.specs.PendingClosingsPart.Pending.{PendingList};

    ghost Value = { PendingList };

    ghost view = { λ c. record { closings = c.closings.items; spare = vec_capacity c.closings - vec_len c.closings } };
}

impl PendingClosings {
    /// No closings.
    pub fn new(alloc: Global) -> Self
        ensures { result.closings ≡ [] }
    {
        PendingClosings {
            closings: Vec::new(alloc),
        }
    }

    /// The closings as a slice.
    pub fn as_slice(&self) -> &[Pending]
        ensures { result.now ≡ self.now.closings }
    {
        self.closings.as_slice()
    }

    /// Makes room for a closing more.
    ///
    /// # Errors
    ///
    /// Want of memory.
    pub fn make_room(&mut self) -> Result<(), AllocError>
        ensures room { OnOk result (0 < self.new.spare) }
        ensures closings { self.new.closings ≡ self.old.closings }
    {
        self.closings.reserve(1)
    }

    /// One closing more.
    pub fn push(&mut self, closing: Pending)
        requires { 0 < self.old.spare }
        ensures { self.new.closings ≡ self.old.closings ++ closing ∷ [] }
    {
        self.closings.push_reserved(closing);
    }

    /// Makes room in each closing for a range more.
    ///
    /// # Errors
    ///
    /// Want of memory. The closings are the same then, with no less room.
    pub fn make_room_in_each(&mut self) -> Result<(), AllocError>
        ensures ok { OnOk result (self.new.closings ≡ map with_more self.old.closings) }
        ensures err { OnErr result (HaveRoomOf self.old.closings self.new.closings) }
    {
        make_rooms(self.closings.as_mut_slice())
    }

    /// Takes the closing of a hart with these objects out.
    pub fn take(&mut self, hart: HartId, set: &[Serial]) -> Option<Pending>
        ensures taken { result ≡ find (is_of hart set.now) self.old.closings }
        ensures closings { self.new.closings ≡ filter (λ p. not (is_of hart set.now p)) self.old.closings }
    {
        let place = place_of(self.closings.as_slice(), hart, set)?;
        let closing = self.closings.remove(place);
        self.closings.retain(|closing| !is_of(closing, hart, set));
        Some(closing)
    }
}

/// Makes room in each of some closings for a range more.
fn make_rooms(closings: &mut [Pending]) -> Result<(), AllocError>
    ensures ok { OnOk result (closings.new ≡ map with_more closings.old) }
    ensures err { OnErr result (HaveRoomOf closings.old closings.new) }
{
    for closing in closings.iter_mut() {
        closing.make_room()?;
    }
    Ok(())
}

/// The place of the first closing of a hart with these objects.
fn place_of(closings: &[Pending], hart: HartId, set: &[Serial]) -> Option<usize>
    ensures found { IfSome result (λ place. slice_get closings.now place ≡ find (is_of hart set.now) closings.now) }
    ensures within { IfSome result (λ place. place < length closings.now) }
    ensures none { IfNone result (find (is_of hart set.now) closings.now ≡ None) }
{
    for (place, closing) in closings.iter().enumerate() {
        if is_of(closing, hart, set) {
            return Some(place);
        }
    }
    None
}

/// Whether it is the closing of a hart with these objects.
fn is_of(closing: &Pending, hart: HartId, set: &[Serial]) -> bool
    ensures { result ≡ is_of hart set.now closing.now }
{
    closing.hart() == hart && closing.set() == set
}
