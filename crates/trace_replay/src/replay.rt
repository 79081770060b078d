//! The history, event by event.

ghost use Rattle.std.specs.Prelude.{◌≡◌, ◌≤◌, ◌^◌, [], IfOk, IfSome, OnErr, OnOk};
ghost use Rattle.std.specs.Option.{option_copied};
ghost use Rattle.history_graph.specs.Initialised.{is_one_of};
ghost use Rattle.history_journal.specs.LinkHarts.Kept.{fault_of};
ghost use Rattle.history_state.specs.Areas.{free_pages};
ghost use Rattle.trace_replay.specs.Heads.{serials_in};
ghost use Rattle.trace_replay.specs.Shown.{IsHistory, Shows};
ghost use Rattle.trace_replay.specs.Steps.{storage_in};
ghost use Rattle.trace_replay.specs.Taken.{AreChosen, Follows, OpensNothing, Takes, event_of};

use crate::grants::GrantTable;
use crate::steps::{is_mapped, note_head, open, step, storage_in};
use crate::tables::Tables;
use address_space::Regions;
use history_calls::{constructors_follow, own_order_is_the_order};
use history_event::{Chosen, Closing, Ending, Event, Loading, Opening, Range};
use history_journal::accepted_object;
use history_state::{
    finalised_once, legal_step_by_step, modules_are_few, modules_are_tidy, objects_are_read,
    serials_are_in_order,
};
use ld_base::{DlFault, HartId, Serial, TlsSeg};
use link_lists::LateBlocks;
use link_open_laws::{new_modules_have_places, new_ranges_are_laid};
use link_spaces::namespaces_are_numbered_apart;
use scope_rule::Namespace;
use std::alloc::{AllocError, Global};
use std::marker::Model;
use tls_blocks::TlsModules;

/// The lists of a lawful history of so many harts. Contracts see them; of which history they are they say for
/// each whose lists these are.
#[derive(Drop)]
pub struct Replay {
    alloc: Global,
    tables: Tables,
}

impl Model for Replay {
    ghost use Rattle.trace_replay.specs.Lists.{Lists};

    ghost Value = { Lists };

    ghost use Rattle.trace_replay.specs.Inside.{lists_of};
    ghost use Rattle.trace_replay.specs.Keeping.{IsKept};

    ghost view = { λ r. lists_of r.tables };

    ghost invariant = { λ r. IsKept (lists_of r.tables) };
}

impl Replay {
    /// The lists before the first event of so many harts.
    ///
    /// # Errors
    ///
    /// Want of memory.
    pub fn new(alloc: Global, harts: u32) -> Result<Self, AllocError>
        ensures harts { IfOk result (λ r. r.harts ≡ harts) }
        ensures shows { IfOk result (Shows []) }
    {
        let tables = Tables::new(alloc, harts)?;
        Ok(Replay { alloc, tables })
    }

    /// There is a history that the lists show.
    pub fn has_history(&self)
        ensures { IsHistory self.now }
    {
        let _ = &self.tables;
    }

    /// How many harts there are.
    pub fn harts(&self) -> u32
        ensures { result ≡ self.now.harts }
    {
        self.tables.harts
    }

    /// Whether nothing was loaded yet, so that the next opening is startup's.
    pub fn is_startup(&self) -> bool
        ensures { result ≡ self.now.begins }
    {
        self.tables.begins
    }

    /// Whether slots are bound at load in the whole run.
    pub fn binds_now(&self) -> bool
        ensures { result ≡ self.now.binds }
    {
        self.tables.binds
    }

    /// The namespaces, with the mapped objects.
    pub fn namespaces(&self) -> &[Namespace]
        ensures { result.now ≡ self.now.namespaces }
    {
        self.tables.namespaces.as_slice()
    }

    /// The serial of the next new object.
    pub fn next_serial(&self) -> Serial
        ensures { result ≡ self.now.next }
    {
        Serial::new(self.tables.next)
    }

    /// The pages that are reserved, and what for.
    pub fn ranges(&self) -> &[Range]
        ensures { result.now ≡ self.now.ranges }
    {
        self.tables.reserved.as_slice()
    }

    /// The pages that are free.
    pub fn regions(&self) -> &Regions
        ensures { result.now ≡ free_pages self.now.ranges }
    {
        self.tables.reserved.regions()
    }

    /// The modules of thread-local storage.
    pub fn modules(&self) -> &TlsModules
        ensures modules { result.now.modules ≡ self.now.modules }
        ensures size { result.now.size ≡ self.now.statics.size }
        ensures tp { result.now.tp ≡ self.now.statics.tp }
        ensures generation { result.now.generation ≡ self.now.generation }
    {
        &self.tables.modules
    }

    /// The blocks of late modules that harts got.
    pub fn blocks(&self) -> &LateBlocks
        ensures { result.now.blocks ≡ self.now.blocks }
    {
        &self.tables.blocks
    }

    /// Whether an object is mapped.
    pub fn is_mapped(&self, serial: Serial) -> bool
        ensures { result ≡ is_one_of (serials_in self.now.namespaces) serial }
    {
        is_mapped(self.namespaces(), serial)
    }

    /// The segment of thread-local storage of a mapped object.
    pub fn segment(&self, serial: Serial) -> Option<TlsSeg>
        ensures of { result ≡ storage_in self.now.namespaces serial }
        ensures align { IfSome result (λ seg. seg.align ≤ 2 ^ 20) }
        ensures memory { IfSome result (λ seg. seg.memsz ≤ 2 ^ 20) }
    {
        objects_are_read();
        accepted_object();
        storage_in(self.tables.namespaces.as_slice(), serial)
    }

    /// All grants.
    pub fn grants(&self) -> &GrantTable
        ensures { result.now ≡ self.now.grants }
    {
        &self.tables.grants
    }

    /// The objects that startup loaded, in load order.
    pub fn startup(&self) -> &[Serial]
        ensures { result.now ≡ self.now.startup }
    {
        self.tables.startup.as_slice()
    }

    /// What the mapped objects chose when they were loaded.
    pub fn chosen(&self) -> &[Chosen]
        ensures { result.now ≡ self.now.chosen }
    {
        self.tables.chosen.as_slice()
    }

    /// The roots that stay (RTLD_NODELETE).
    pub fn pinned(&self) -> &[Serial]
        ensures { result.now ≡ self.now.pinned }
    {
        self.tables.pinned.as_slice()
    }

    /// The closings whose objects aren't unmapped yet.
    pub fn closings(&self) -> &[Closing]
        ensures { result.now ≡ self.now.closings }
    {
        self.tables.closings.as_slice()
    }

    /// The objects that were initialised and not finalised, in the order of their initialisation.
    pub fn unfinished(&self) -> &[Serial]
        ensures { result.now ≡ self.now.unfinished }
    {
        self.tables.unfinished.as_slice()
    }

    /// The refusal that is kept for a hart.
    pub fn kept(&self, hart: HartId) -> Option<&DlFault>
        ensures { option_copied result ≡ fault_of hart self.now.kept }
    {
        self.tables.kept.find(hart)
    }

    /// The ends of harts, in the order in which they came.
    pub fn endings(&self) -> &[Ending]
        ensures { result.now ≡ self.now.endings }
    {
        self.tables.endings.as_slice()
    }

    /// What is left of each loading whose objects aren't all initialised.
    pub fn starting(&self) -> &[Loading]
        ensures { result.now ≡ self.now.starting }
    {
        self.tables.starting.as_slice()
    }

    /// The objects that were the next to be finalised of all that are mapped, since every hart exited.
    pub fn heads(&self) -> &[Serial]
        ensures { result.now ≡ self.now.heads }
    {
        self.tables.heads.as_slice()
    }

    /// Takes in an event that may come, any but an opening that is done.
    ///
    /// # Errors
    ///
    /// Want of memory. Nothing has changed then.
    pub fn take_in(&mut self, event: &Event) -> Result<(), AllocError>
        requires follows { Follows self.old event.now }
        requires opens { OpensNothing event.now }
        ensures takes { OnOk result (Takes self.old event.now self.new) }
        ensures harts { self.new.harts ≡ self.old.harts }
        ensures err { OnErr result (self.new ≡ self.old) }
    {
        legal_step_by_step();
        finalised_once();
        serials_are_in_order();
        constructors_follow();
        modules_are_tidy();
        modules_are_few();
        objects_are_read();
        accepted_object();
        self.tables.heads.reserve(1)?;
        step(self.alloc, &mut self.tables, event)?;
        note_head(&mut self.tables);
        Ok(())
    }

    /// Takes in an opening that may come, with what the relocations of its new objects chose.
    ///
    /// # Errors
    ///
    /// Want of memory. Nothing has changed then.
    pub fn open(&mut self, opening: Opening) -> Result<(), AllocError>
        requires follows { Follows self.old (event_of opening) }
        requires chosen { AreChosen self.old opening }
        ensures takes { OnOk result (Takes self.old (event_of opening) self.new) }
        ensures harts { self.new.harts ≡ self.old.harts }
        ensures err { OnErr result (self.new ≡ self.old) }
    {
        legal_step_by_step();
        finalised_once();
        serials_are_in_order();
        constructors_follow();
        own_order_is_the_order();
        new_modules_have_places();
        new_ranges_are_laid();
        namespaces_are_numbered_apart();
        objects_are_read();
        accepted_object();
        self.tables.heads.reserve(1)?;
        open(self.alloc, &mut self.tables, opening)?;
        note_head(&mut self.tables);
        Ok(())
    }
}
