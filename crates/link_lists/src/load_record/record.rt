//! The record.

ghost use Rattle.std.specs.Prelude.{◌≡◌, ◌+◌, ◌<◌, ◌≤◌, ◌^◌, if◌then◌else◌, [], false, ◌++◌, length, map, IsTrue, OnOk};
ghost use Rattle.std.specs.Vec.{vec_capacity, vec_len};
ghost use Rattle.link_lists.specs.LoadRecordPart.Loads.{Notes, is_first};
ghost use Rattle.history_state.specs.Flags.{is_nodelete, is_now};
ghost use Rattle.history_state.specs.Objects.{serial_of};

use crate::open_flags::{is_nodelete, is_now};
use ld_base::{Loaded, Serial};
use std::alloc::{AllocError, Global};
use std::marker::Model;

/// What was noted of the openings so far.
#[derive(Drop)]
pub struct LoadRecord {
    binds: bool,
    next: u64,
    startup: Vec<Serial>,
    pinned: Vec<Serial>,
}

impl Model for LoadRecord {
    ghost use Rattle.std.specs.Prelude.{◌-◌};
    ghost use Rattle.std.specs.Vec.{vec_capacity, vec_len};
    ghost use Rattle.link_lists.specs.LoadRecordPart.Loads.{LoadTable};

    ghost Value = { LoadTable };

    ghost view = { λ r. record {
      binds = r.binds;
      next = r.next;
      startup = r.startup.items;
      pinned = r.pinned.items;
      startup_room = vec_capacity r.startup - vec_len r.startup;
      pinned_room = vec_capacity r.pinned - vec_len r.pinned;
    } };
}

impl LoadRecord {
    /// Nothing was opened yet: the first object gets the serial 1.
    pub fn new(alloc: Global) -> Self
        ensures binds { result.binds ≡ false }
        ensures next { result.next ≡ 1 }
        ensures startup { result.startup ≡ [] }
        ensures pinned { result.pinned ≡ [] }
    {
        LoadRecord {
            binds: false,
            next: 1,
            startup: Vec::new(alloc),
            pinned: Vec::new(alloc),
        }
    }

    /// Whether slots are bound at load in the whole run.
    pub fn binds_now(&self) -> bool
        ensures { result ≡ self.now.binds }
    {
        self.binds
    }

    /// The serial of the next new object.
    pub fn next(&self) -> Serial
        ensures { result ≡ self.now.next }
    {
        Serial::new(self.next)
    }

    /// Whether nothing was loaded yet, so that the next opening is startup's.
    pub fn is_startup(&self) -> bool
        ensures { result ≡ is_first self.now }
    {
        self.startup.is_empty()
    }

    /// The objects that startup loaded, in load order.
    pub fn startup(&self) -> &[Serial]
        ensures { result.now ≡ self.now.startup }
    {
        self.startup.as_slice()
    }

    /// The roots that stay (RTLD_NODELETE).
    pub fn pinned(&self) -> &[Serial]
        ensures { result.now ≡ self.now.pinned }
    {
        self.pinned.as_slice()
    }

    /// Makes room for an opening that loads so many objects.
    ///
    /// # Errors
    ///
    /// Want of memory.
    pub fn make_room(&mut self, added: usize) -> Result<(), AllocError>
        ensures binds { self.new.binds ≡ self.old.binds }
        ensures next { self.new.next ≡ self.old.next }
        ensures startup { self.new.startup ≡ self.old.startup }
        ensures pinned { self.new.pinned ≡ self.old.pinned }
        ensures startup_room { OnOk result (added ≤ self.new.startup_room) }
        ensures pinned_room { OnOk result (0 < self.new.pinned_room) }
    {
        self.startup.reserve(added)?;
        self.pinned.reserve(1)
    }

    /// Notes an opening of this root that loaded these objects.
    pub fn note(&mut self, flags: u64, root: Serial, added: &[Loaded])
        requires next { self.old.next + length added.now < 2 ^ 64 }
        requires startup_room { IsTrue (is_first self.old) → length added.now ≤ self.old.startup_room }
        requires pinned_room { IsTrue (is_nodelete flags) → 0 < self.old.pinned_room }
        ensures { Notes self.old flags root added.now self.new }
    {
        self.next += added.len() as u64;
        if is_nodelete(flags) && !self.pinned.contains(&root) {
            self.pinned.push_reserved(root);
        }
        self.note_startup(flags, added);
    }

    /// Notes what startup loaded, and whether it asked for slots to be bound.
    fn note_startup(&mut self, flags: u64, added: &[Loaded])
        requires { IsTrue (is_first self.old) → length added.now ≤ self.old.startup_room }
        ensures binds { self.new.binds ≡ (if is_first self.old then is_now flags else self.old.binds) }
        ensures startup { self.new.startup ≡ (if is_first self.old then map serial_of added.now else self.old.startup) }
        ensures next { self.new.next ≡ self.old.next }
        ensures pinned { self.new.pinned ≡ self.old.pinned }
    {
        if !self.startup.is_empty() {
            return;
        }
        self.binds = is_now(flags);
        push_serials(&mut self.startup, added);
    }
}

/// Puts the serials of objects at the end, where there is room for them.
fn push_serials(serials: &mut Vec<Serial>, objects: &[Loaded])
    requires { vec_len serials.old + length objects.now ≤ vec_capacity serials.old }
    ensures { serials.new.items ≡ serials.old.items ++ map serial_of objects.now }
{
    for object in objects {
        serials.push_reserved(object.serial);
    }
}
