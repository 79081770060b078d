//! The parts.

ghost use Rattle.std.specs.Prelude.{not, ◌≡◌, ◌+◌, ◌-◌, ◌<◌, ◌≤◌, ◌==◌, [], ◌∷◌, ◌++◌, true, filter, find, length, slice_index_or, OnOk, OnErr};
ghost use Rattle.std.specs.List.Sorted.{IsNonDecreasingBy};
ghost use Rattle.std.specs.Option.{option_copied};
ghost use Rattle.history_state.specs.Objects.{has};
ghost use Rattle.link_images.specs.Parts.{serial_of};
ghost use Rattle.link_images.specs.declared.parts.Part.{Part as OnePart};

use history_event::Addresses;
use history_graph::SerialSet;
use ld_base::{Bytes, Serial};
use std::alloc::{AllocError, Global};
use std::marker::Model;

/// What is kept of an object's image.
#[derive(Drop)]
pub struct Part {
    pub serial: Serial,
    /// Its destructors, in the order in which they run.
    pub destructors: Addresses,
    /// What the object gives for a block of its thread-local storage, from the block's beginning on.
    pub storage: Bytes,
}

/// Parts of images, in the order of the images: one is searched by halves while that is the order of their
/// serials. Contracts see them with the room for more.
#[derive(Drop)]
pub struct ImageParts {
    parts: Vec<Part>,
    room: usize,
    ascends: bool,
}

impl Model for ImageParts {
    ghost use Rattle.std.specs.Prelude.{◌≡◌, ◌+◌, ◌≤◌, true};
    ghost use Rattle.std.specs.List.Sorted.{IsNonDecreasingBy};
    ghost use Rattle.std.specs.Vec.{vec_capacity, vec_len};
    ghost use Rattle.link_images.specs.Parts.{PartsWithRoom, serial_of};

    ghost Value = { PartsWithRoom };

    ghost view = { λ p. record { parts = p.parts.items; room = p.room } };

    ghost invariant = { λ p.
        (vec_len p.parts + p.room ≤ vec_capacity p.parts)
        × (p.ascends ≡ true → IsNonDecreasingBy serial_of p.parts.items) };
}

impl ImageParts {
    /// No parts.
    pub fn new(alloc: Global) -> Self
        ensures parts { result.parts ≡ [] }
        ensures room { result.room ≡ 0 }
    {
        ImageParts {
            parts: Vec::new(alloc),
            room: 0,
            ascends: true,
        }
    }

    /// That of an object.
    pub fn find(&self, serial: Serial) -> Option<&Part>
        ensures { option_copied result ≡ find (λ p. p.serial == serial) self.now.parts }
    {
        let parts = self.parts.as_slice();
        if self.ascends {
            found_by_halves(parts, serial)
        } else {
            found_in(parts, serial)
        }
    }

    /// Makes room for those of so many images more.
    ///
    /// # Errors
    ///
    /// Want of memory. Nothing has changed then.
    pub fn make_room(&mut self, more: usize) -> Result<(), AllocError>
        ensures parts { self.new.parts ≡ self.old.parts }
        ensures room { OnOk result (self.new.room ≡ self.old.room + more) }
        ensures err { OnErr result (self.new.room ≡ self.old.room) }
    {
        let Some(room) = self.room.checked_add(more) else {
            return Err(AllocError);
        };
        self.parts.reserve(room)?;
        self.room = room;
        Ok(())
    }

    /// Puts that of an image at the end, where there is room for it.
    pub fn push(&mut self, part: Part)
        requires { 0 < self.old.room }
        ensures parts { self.new.parts ≡ self.old.parts ++ part ∷ [] }
        ensures room { self.new.room + 1 ≡ self.old.room }
    {
        self.ascends = ascends_behind(self.ascends, self.parts.as_slice(), part.serial);
        self.parts.push_reserved(part);
        self.room -= 1;
    }

    /// The objects of a set go.
    pub fn remove(&mut self, set: &[Serial])
        ensures parts { self.new.parts ≡ filter (λ p. not (has set.now p.serial)) self.old.parts }
        ensures room { self.new.room ≡ self.old.room }
    {
        let going = SerialSet::new(set);
        self.parts.retain(|part| !going.has(part.serial));
    }
}

/// Whether serials ascend with one more behind others, of which it is known whether they do.
fn ascends_behind(ascends: bool, parts: &[Part], serial: Serial) -> bool
    ensures others { result ≡ true → ascends ≡ true }
    ensures last { result ≡ true → (d : OnePart) → 0 < length parts.now → serial_of (slice_index_or parts.now (length parts.now - 1) d) ≤ serial }
{
    if !ascends {
        return false;
    }
    match parts.last() {
        Some(last) => last.serial.number() <= serial.number(),
        None => true,
    }
}

/// The part of an object, where serials ascend.
fn found_by_halves(parts: &[Part], serial: Serial) -> Option<&Part>
    requires { IsNonDecreasingBy serial_of parts.now }
    ensures { option_copied result ≡ find (λ p. p.serial == serial) parts.now }
{
    let number = serial.number();
    let place = parts.partition_point(|part| part.serial.number() < number);
    let (_, rest) = parts.split_at(place);
    let Some(part) = rest.first() else {
        return None;
    };
    (part.serial == serial).then_some(part)
}

/// The part of an object, in any order.
fn found_in(parts: &[Part], serial: Serial) -> Option<&Part>
    ensures { option_copied result ≡ find (λ p. p.serial == serial) parts.now }
{
    for part in parts {
        if part.serial == serial {
            return Some(part);
        }
    }
    None
}
