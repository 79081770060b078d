//! A hart that runs with its linker.

ghost use Rattle.std.specs.Prelude.{◌≡◌, ◌+◌, ◌<◌, ◌≤◌, ◌^◌, OnErr, OnOk};
ghost use Rattle.std.specs.Option.{option_map};
ghost use Rattle.rv_hart.specs.Registers.{registers_of};
ghost use Rattle.rv_hart.specs.Trail.{Steps};
ghost use Rattle.hart_moves.specs.Moves.{ended, freed, spent};
ghost use Rattle.hart_moves.specs.Starting.{starting_hart};
ghost use Rattle.hart_seat.specs.Table.{done_of, done_with};

mod calls;
mod copying;
mod due;
mod finalised;
mod functions;
mod services;
mod slot;

use crate::hart_parts::{FunctionQueue, Offered, PassedBytes, start};
use crate::phase::{Phase, Resolving};
pub use finalised::FinalisedObject;
use history_event::{HartEnd, HartEntry};
use ld_base::Name;
use rv_hart::{Bus, Hart, Stop};
use std::alloc::{AllocError, Global};
use std::marker::Model;

/// Where an entry of the procedure linkage table passes the serial of its slot's object: t0.
const OWNER: usize = 5;
/// Where it passes eight times the slot's number: t1.
const EIGHTS: usize = 6;

/// A hart that runs with its linker. Contracts see the hart, and the room that is kept for functions
/// that the linker may have it run.
#[derive(Drop)]
pub struct LinkedHart {
    registers: Hart,
    phase: Phase,
    /// The first bytes of what it passes, or the whole name.
    bytes: PassedBytes,
    version: PassedBytes,
    /// dlerror's text.
    message: Name,
    resolving: Resolving,
    /// The innermost last.
    frames: Vec<FunctionQueue>,
    fuel: u64,
    turns: u64,
    end: Option<HartEnd>,
}

impl Model for LinkedHart {
    ghost use Rattle.hart_seat.specs.Table.{HartTable};

    ghost Value = { HartTable };

    ghost use Rattle.hart_seat.specs.Inside.{IsBounded, hart_of, spare_of};

    ghost view = { λ h. record { hart = hart_of h; spare = spare_of h } };

    ghost invariant = { λ h. IsBounded h };
}

impl LinkedHart {
    /// A hart that starts, and may take so many turns.
    pub fn new(alloc: Global, fuel: u64, entry: HartEntry) -> Self
        requires { fuel ≤ 2 ^ 32 }
        ensures { result.hart ≡ starting_hart fuel entry }
    {
        LinkedHart {
            registers: start(entry),
            phase: Phase::AtPc,
            bytes: PassedBytes::new(),
            version: PassedBytes::new(),
            message: Name::empty(),
            resolving: Resolving::Idle,
            frames: Vec::new(alloc),
            fuel,
            turns: 0,
            end: None,
        }
    }

    /// Makes room for functions that the linker may have the hart run next.
    ///
    /// # Errors
    ///
    /// Want of memory. Nothing has changed then.
    pub fn make_room(&mut self) -> Result<(), AllocError>
        ensures room { OnOk result (0 < self.new.spare) }
        ensures hart { self.new.hart ≡ self.old.hart }
    {
        self.frames.reserve(1)
    }

    /// Its registers.
    pub fn registers(&self) -> &Hart
        ensures { registers_of result.now ≡ self.now.hart.registers }
    {
        &self.registers
    }

    /// How it has ended, if it has.
    pub fn end(&self) -> Option<HartEnd>
        ensures { result ≡ self.now.hart.«end» }
    {
        self.end
    }

    /// The slot that it is done with, while its grant isn't settled, and the word that it found there.
    pub fn done(&self) -> Option<(Offered, u64)>
        ensures { option_map done_of result ≡ done_with self.now.hart.resolving }
    {
        match self.resolving {
            Resolving::ToSettle(offered, found) => Some((offered, found)),
            _ => None,
        }
    }

    /// A turn is counted.
    pub fn spend(&mut self)
        requires { self.old.hart.turns < self.old.hart.fuel }
        ensures { self.new.hart ≡ spent self.old.hart }
    {
        self.turns += 1;
    }

    /// The hart ends, and its grant is settled, if it was done with one.
    pub fn stop(&mut self, reason: HartEnd)
        ensures { self.new.hart ≡ ended reason self.old.hart }
    {
        self.settle();
        self.end = Some(reason);
    }

    /// Its grant is settled, if it was done with one.
    pub fn settle(&mut self)
        ensures hart { self.new.hart ≡ freed self.old.hart }
        ensures spare { self.new.spare ≡ self.old.spare }
    {
        if let Resolving::ToSettle(..) = self.resolving {
            self.resolving = Resolving::Idle;
        }
    }

    /// One step: an instruction, by the instruction table.
    ///
    /// # Errors
    ///
    /// Why the hart stops. Nothing has changed then.
    pub fn step<B: Bus>(&mut self, bus: &mut B) -> Result<(), Stop>
        ensures followed { Steps B.does bus.old bus.new self.old.hart.registers self.new.hart.registers result }
        ensures hart { self.new.hart ≡ record self.old.hart { registers = self.new.hart.registers } }
        ensures stopped { OnErr result (self.new.hart ≡ self.old.hart) }
    {
        rv_hart::step(&mut self.registers, bus)
    }
}
