//! The journal.

ghost use Rattle.std.specs.Prelude.{◌≡◌, ◌+◌, ◌<◌, ◌≤◌, [], ◌∷◌, ◌++◌, IfOk, OnOk, OnErr};
ghost use Rattle.history_state.specs.After.{after};
ghost use Rattle.history_state.specs.Legal.{Lawful};
ghost use Rattle.history_state.specs.Owed.{IsOwed, brings};
ghost use Rattle.history_state.specs.Step.{step};
ghost use Rattle.history_journal.specs.Following.{MayFollow, machine_of};

use crate::link_harts::each_hart_ends;
use history_event::{Event, Journal};
use history_state::{events_are_owed, legal_step_by_step};
use std::alloc::{AllocError, Global};
use std::marker::Model;

/// A lawful journal of so many harts. Contracts see the harts, the events, and the room for more
/// beside that for the events that are owed, which is always there.
#[derive(Drop)]
pub struct LawfulJournal {
    harts: u32,
    journal: Journal,
}

impl Model for LawfulJournal {
    ghost use Rattle.std.specs.Prelude.{◌-◌};
    ghost use Rattle.history_state.specs.After.{after};
    ghost use Rattle.history_state.specs.Owed.{owed};
    ghost use Rattle.history_journal.specs.Following.{LawfulEvents};
    ghost use Rattle.history_journal.specs.Keeping.{IsKept};

    ghost Value = { LawfulEvents };

    ghost view = { λ j. record {
      harts = j.harts;
      events = j.journal.events;
      spare = j.journal.room - owed j.harts (after j.journal.events);
    } };

    ghost invariant = { λ j. IsKept j.harts j.journal.events j.journal.room };
}

impl LawfulJournal {
    /// No events yet, with room for the end of each hart.
    ///
    /// # Errors
    ///
    /// Want of memory.
    pub fn new(alloc: Global, harts: u32) -> Result<Self, AllocError>
        requires { 1 ≤ harts }
        ensures harts { IfOk result (λ j. j.harts ≡ harts) }
        ensures events { IfOk result (λ j. j.events ≡ []) }
    {
        each_hart_ends();
        let mut journal = Journal::new(alloc);
        journal.make_room(harts as usize + 1)?;
        Ok(LawfulJournal { harts, journal })
    }

    /// How many harts there are.
    pub fn harts(&self) -> u32
        ensures { result ≡ self.now.harts }
    {
        self.harts
    }

    /// The events, which are lawful.
    pub fn journal(&self) -> &Journal
        ensures events { result.now.events ≡ self.now.events }
        ensures lawful { Lawful (machine_of self.now.harts) self.now.events }
    {
        &self.journal
    }

    /// The events, which are lawful, as a journal by itself.
    pub fn into_journal(self) -> Journal
        ensures events { result.events ≡ self.events }
        ensures lawful { Lawful (machine_of self.harts) self.events }
    {
        let LawfulJournal { harts: _, journal } = self;
        journal
    }

    /// Makes room for so many events more.
    ///
    /// # Errors
    ///
    /// Want of memory. Nothing has changed then.
    pub fn make_room(&mut self, more: usize) -> Result<(), AllocError>
        ensures harts { self.new.harts ≡ self.old.harts }
        ensures events { self.new.events ≡ self.old.events }
        ensures spare { OnOk result (self.new.spare ≡ self.old.spare + more) }
        ensures err { OnErr result (self.new.spare ≡ self.old.spare) }
    {
        self.journal.make_room(more)
    }

    /// Puts an event that may come next at the end, where there is room for it and for those that will
    /// be owed because of it.
    pub fn push(&mut self, event: Event)
        requires room { brings event < self.old.spare }
        requires may { MayFollow self.old.harts self.old.events event }
        ensures harts { self.new.harts ≡ self.old.harts }
        ensures events { self.new.events ≡ self.old.events ++ event ∷ [] }
        ensures spare { self.old.spare ≤ self.new.spare + brings event + 1 }
        ensures state { after self.new.events ≡ step (after self.old.events) event }
    {
        legal_step_by_step();
        events_are_owed();
        self.journal.push(event);
    }

    /// Puts an event that is owed at the end: there is room for it.
    pub fn push_owed(&mut self, event: Event)
        requires owed { IsOwed self.old.harts (after self.old.events) event }
        requires may { MayFollow self.old.harts self.old.events event }
        ensures harts { self.new.harts ≡ self.old.harts }
        ensures events { self.new.events ≡ self.old.events ++ event ∷ [] }
        ensures spare { self.old.spare ≤ self.new.spare }
        ensures state { after self.new.events ≡ step (after self.old.events) event }
    {
        legal_step_by_step();
        events_are_owed();
        self.journal.push(event);
    }
}
