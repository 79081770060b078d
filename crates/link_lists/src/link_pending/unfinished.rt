//! The objects whose destructors are still to run.

ghost use Rattle.std.specs.Prelude.{◌≡◌, ◌+◌, ◌<◌, ◌==◌, [], ◌∷◌, ◌++◌, filter, not, OnOk, OnErr};

use ld_base::Serial;
use std::alloc::{AllocError, Global};
use std::marker::Model;

/// The objects whose constructors have run and whose destructors haven't, in the order in which they
/// were initialised. Contracts see them with the room for more.
#[derive(Drop)]
pub struct Unfinished {
    serials: Vec<Serial>,
    room: usize,
}

impl Model for Unfinished {
    ghost use Rattle.std.specs.Prelude.{◌+◌, ◌≤◌};
    ghost use Rattle.std.specs.Vec.{vec_capacity, vec_len};
    ghost use Rattle.link_lists.specs.LinkPending.Pending.{SerialsWithRoom};

    ghost Value = { SerialsWithRoom };

    ghost view = { λ u. record { serials = u.serials.items; room = u.room } };

    ghost invariant = { λ u. vec_len u.serials + u.room ≤ vec_capacity u.serials };
}

impl Unfinished {
    /// No objects.
    pub fn new(alloc: Global) -> Self
        ensures serials { result.serials ≡ [] }
        ensures room { result.room ≡ 0 }
    {
        Unfinished {
            serials: Vec::new(alloc),
            room: 0,
        }
    }

    /// The serials as a slice.
    pub fn as_slice(&self) -> &[Serial]
        ensures { result.now ≡ self.now.serials }
    {
        self.serials.as_slice()
    }

    /// Makes room for so many objects more.
    ///
    /// # Errors
    ///
    /// Want of memory. Nothing has changed then.
    pub fn make_room(&mut self, more: usize) -> Result<(), AllocError>
        ensures serials { self.new.serials ≡ self.old.serials }
        ensures room { OnOk result (self.new.room ≡ self.old.room + more) }
        ensures err { OnErr result (self.new.room ≡ self.old.room) }
    {
        let Some(room) = self.room.checked_add(more) else {
            return Err(AllocError);
        };
        self.serials.reserve(room)?;
        self.room = room;
        Ok(())
    }

    /// The constructors of an object have run; there is room for it.
    pub fn push(&mut self, serial: Serial)
        requires { 0 < self.old.room }
        ensures serials { self.new.serials ≡ self.old.serials ++ serial ∷ [] }
        ensures room { self.new.room + 1 ≡ self.old.room }
    {
        self.serials.push_reserved(serial);
        self.room -= 1;
    }

    /// The destructors of an object have run.
    pub fn remove(&mut self, serial: Serial)
        ensures serials { self.new.serials ≡ filter (λ d. not (d == serial)) self.old.serials }
        ensures room { self.new.room ≡ self.old.room }
    {
        self.serials.retain(|other| *other != serial);
    }
}
