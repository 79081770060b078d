//! The journal of a run.

ghost use Rattle.std.specs.Prelude.{◌≡◌, ◌+◌, ◌<◌, [], ◌∷◌, ◌++◌, length, OnOk, OnErr};

use crate::Event;
use std::alloc::{AllocError, Global};
use std::marker::Model;

/// Events, the first of a run first. Contracts see them with the room that is kept for further ones: a
/// number of events that may still be put at the end without memory.
#[derive(Drop)]
pub struct Journal {
    events: Vec<Event>,
    room: usize,
}

impl Model for Journal {
    ghost use Rattle.std.specs.Prelude.{◌+◌, ◌≤◌};
    ghost use Rattle.std.specs.Vec.{vec_capacity, vec_len};
    ghost use Rattle.history_event.specs.Roomy.{RoomyEvents};

    ghost Value = { RoomyEvents };

    ghost view = { λ j. record { events = j.events.items; room = j.room } };

    ghost invariant = { λ j. vec_len j.events + j.room ≤ vec_capacity j.events };
}

impl Journal {
    /// No events, and no room for any.
    pub fn new(alloc: Global) -> Self
        ensures events { result.events ≡ [] }
        ensures room { result.room ≡ 0 }
    {
        Journal {
            events: Vec::new(alloc),
            room: 0,
        }
    }

    /// How many events there are.
    pub fn len(&self) -> usize
        ensures { result ≡ length self.now.events }
    {
        self.events.len()
    }

    /// The events as a slice.
    pub fn as_slice(&self) -> &[Event]
        ensures { result.now ≡ self.now.events }
    {
        self.events.as_slice()
    }

    /// Makes room for so many events more.
    ///
    /// # Errors
    ///
    /// Want of memory. Nothing has changed then.
    pub fn make_room(&mut self, more: usize) -> Result<(), AllocError>
        ensures events { self.new.events ≡ self.old.events }
        ensures room { OnOk result (self.new.room ≡ self.old.room + more) }
        ensures err { OnErr result (self.new.room ≡ self.old.room) }
    {
        let Some(room) = self.room.checked_add(more) else {
            return Err(AllocError);
        };
        self.events.reserve(room)?;
        self.room = room;
        Ok(())
    }

    /// Puts an event at the end, where there is room.
    pub fn push(&mut self, event: Event)
        requires { 0 < self.old.room }
        ensures events { self.new.events ≡ self.old.events ++ event ∷ [] }
        ensures room { self.new.room + 1 ≡ self.old.room }
    {
        self.events.push_reserved(event);
        self.room -= 1;
    }
}
