//! The state.

ghost use Rattle.std.specs.Prelude.{◌≡◌, ◌<◌, ◌≤◌, [], IfErr, IfNone, IfOk, IfSome, IsTrue, OnOk, OnErr};
ghost use Rattle.std.specs.Option.{option_copied, option_map};
ghost use Rattle.history_event.specs.declared.event.Event.TheVariants.{Ended, Fini, Init, Told, Unresolved, Wrote};
ghost use Rattle.history_state.specs.After.{after};
ghost use Rattle.history_state.specs.Allowed.{MayWrite, kept_for};
ghost use Rattle.history_state.specs.Areas.{free_pages};
ghost use Rattle.history_state.specs.Legal.{Lawful};
ghost use Rattle.history_state.specs.Links.{unfinished};
ghost use Rattle.history_state.specs.Memory.{image_of};
ghost use Rattle.history_state.specs.Objects.{namespace_of, object_at};
ghost use Rattle.history_state.specs.Owed.{ends_at_most, times_ended};
ghost use Rattle.history_state.specs.Slots.{HasNoGrant};
ghost use Rattle.history_calls.specs.Functions.{destructors};
ghost use Rattle.history_calls.specs.Served.{InstallsNothing};
ghost use Rattle.history_journal.specs.Following.{MayFollow, machine_of};
ghost use Rattle.link_spaces.specs.ObjectHolders.Holders.{HasNone, IsFound};
ghost use Rattle.link_finds.specs.SlotChoosing.Choosing.{ChoosesSlot, IsFaultOf};
ghost use Rattle.link_state.specs.Granting.{IsGranted, IsNotGranted};
ghost use Rattle.link_state.specs.Table.{appended};
ghost use Rattle.link_holds.specs.Events.{refusal, settled};

mod closing;
mod locating;
mod looking;
mod opening;
mod settling;
mod unmapping;

use crate::faults::GrantFault;
use address_space::Regions;
use elf_object::one_object;
use history_calls::Installs;
use history_event::{Addresses, Ask, Event, Granted, HartEnd, Journal, Range};
use history_journal::{KeptFaults, LawfulJournal, one_image};
use history_state::{
    edges_follow, events_are_owed, finalised_once, grants_are_tidy, images_are_found,
    legal_step_by_step, objects_are_apart, objects_are_read,
};
use ld_base::{Bytes, DlFault, GrantNo, HartId, Loaded, NsId, Serial};
use link_finds::{SlotChoice, SlotFault};
use link_holds::{
    base_namespaces, end_event, grant_event, granted, hold, is_missing, kept_copy, nothing,
    open_grant, refusal_event, room_for_grant, room_for_refusal, settled_event, unresolved_event,
};
use link_images::ImageParts;
use link_lists::{HeldEdges, KnownObjects, LateBlocks, LoadRecord, OpenGrants, Unfinished};
use link_names::ListedNamespaces;
use link_spaces::{PendingClosings, ReservedPages, holder_in, namespace_in, object_in};
use scope_rule::Namespace;
use std::alloc::{AllocError, Global};
use std::marker::Model;
use tls_blocks::TlsModules;

/// The state of a linker for so many harts. Contracts see the harts, the events so far, and what the latest
/// look-up put into memory.
#[derive(Drop)]
pub struct LinkState {
    alloc: Global,
    journal: LawfulJournal,
    kept: KeptFaults,
    settling: OpenGrants,
    unfinished: Unfinished,
    namespaces: ListedNamespaces,
    reserved: ReservedPages,
    modules: TlsModules,
    blocks: LateBlocks,
    parts: ImageParts,
    edges: HeldEdges,
    closings: PendingClosings,
    loads: LoadRecord,
    known: KnownObjects,
    made: Installs,
}

impl Model for LinkState {
    ghost use Rattle.history_state.specs.After.{after};
    ghost use Rattle.link_state.specs.Table.{LinkTable};

    ghost Value = { LinkTable };

    ghost use Rattle.link_holds.specs.Holding.{HoldsAll};
    ghost use Rattle.link_state.specs.Inside.{lists_of};

    ghost view = { λ s. record { harts = s.journal.harts; events = s.journal.events; made = s.made } };

    ghost invariant = { λ s. HoldsAll (after s.journal.events) (lists_of s) };
}

impl LinkState {
    /// The state before the first event.
    ///
    /// # Errors
    ///
    /// Want of memory.
    pub fn new(alloc: Global, harts: u32) -> Result<Self, AllocError>
        requires { 1 ≤ harts }
        ensures harts { IfOk result (λ s. s.harts ≡ harts) }
        ensures events { IfOk result (λ s. s.events ≡ []) }
        ensures made { IfOk result (λ s. InstallsNothing s.made) }
    {
        let namespaces = base_namespaces(alloc)?;
        let journal = LawfulJournal::new(alloc, harts)?;
        Ok(LinkState {
            alloc,
            journal,
            kept: KeptFaults::new(alloc),
            settling: OpenGrants::new(alloc),
            unfinished: Unfinished::new(alloc),
            namespaces: ListedNamespaces::new(alloc, namespaces),
            reserved: ReservedPages::new(alloc),
            modules: TlsModules::new(alloc),
            blocks: LateBlocks::new(alloc),
            parts: ImageParts::new(alloc),
            edges: HeldEdges::new(alloc),
            closings: PendingClosings::new(alloc),
            loads: LoadRecord::new(alloc),
            known: KnownObjects::new(alloc),
            made: nothing(alloc),
        })
    }

    /// The events so far, which are a lawful history.
    pub fn journal(&self) -> &Journal
        ensures events { result.now.events ≡ self.now.events }
        ensures lawful { Lawful (machine_of self.now.harts) self.now.events }
    {
        self.journal.journal()
    }

    /// The events, once the run is over.
    pub fn into_journal(self) -> Journal
        ensures events { result.events ≡ self.events }
        ensures lawful { Lawful (machine_of self.harts) self.events }
    {
        let LinkState { journal, .. } = self;
        journal.into_journal()
    }

    /// How many harts there are.
    pub fn harts(&self) -> u32
        ensures { result ≡ self.now.harts }
    {
        self.journal.harts()
    }

    /// The pages that are free.
    pub fn regions(&self) -> &Regions
        ensures { result.now ≡ free_pages (after self.now.events).ranges }
    {
        self.reserved.regions()
    }

    /// The pages that are reserved, and what for.
    pub fn ranges(&self) -> &[Range]
        ensures { result.now ≡ (after self.now.events).ranges }
    {
        self.reserved.as_slice()
    }

    /// The modules of thread-local storage.
    pub fn modules(&self) -> &TlsModules
        ensures modules { result.now.modules ≡ (after self.now.events).modules }
        ensures size { result.now.size ≡ (after self.now.events).statics.size }
        ensures tp { result.now.tp ≡ (after self.now.events).statics.tp }
        ensures generation { result.now.generation ≡ (after self.now.events).generation }
    {
        &self.modules
    }

    /// The serial of the next new object.
    pub fn next_serial(&self) -> Serial
        ensures { result ≡ (after self.now.events).next }
    {
        self.loads.next()
    }

    /// Whether slots are bound at load in the whole run.
    pub fn binds_now(&self) -> bool
        ensures { result ≡ (after self.now.events).now }
    {
        self.loads.binds_now()
    }

    /// The refusal that is kept for a hart.
    pub fn kept(&self, hart: HartId) -> Option<&DlFault>
        ensures { option_copied result ≡ kept_for (after self.now.events) hart }
    {
        self.kept.find(hart)
    }

    /// The objects that were initialised and not finalised, in the order of their initialisation.
    pub fn unfinished(&self) -> &[Serial]
        ensures { result.now ≡ unfinished (after self.now.events) }
    {
        self.unfinished.as_slice()
    }

    /// The namespace with a number.
    pub fn namespace(&self, ns: NsId) -> Option<&Namespace>
        ensures { option_copied result ≡ namespace_of (after self.now.events) ns }
    {
        namespace_in(self.namespaces.as_slice(), ns)
    }

    /// The mapped object with a serial.
    pub fn object(&self, serial: Serial) -> Option<&Loaded>
        ensures { option_copied result ≡ object_at (after self.now.events) serial }
    {
        object_in(self.namespaces.as_slice(), serial)
    }

    /// The mapped object whose pages hold an address, with its namespace.
    pub fn holder(&self, address: u64) -> Option<(NsId, Serial)>
        ensures found { IfSome result (λ p. IsFound (after self.now.events).namespaces address p.0 p.1) }
        ensures none { IfNone result (HasNone (after self.now.events).namespaces address) }
    {
        objects_are_read();
        one_image();
        let _ = self.journal.journal();
        holder_in(self.namespaces.as_slice(), address)
    }

    /// What the latest look-up or request of a block that was answered puts into memory: the pages of the
    /// block that it made, if it made one.
    pub fn made_block(&self) -> &Installs
        ensures { result.now ≡ self.now.made }
    {
        &self.made
    }

    /// The addresses of the destructors of a mapped object, in the order in which they run.
    pub fn finis(&self, serial: Serial) -> Option<&Addresses>
        ensures { option_copied result ≡ option_map destructors (image_of (after self.now.events) serial) }
    {
        match self.parts.find(serial) {
            Some(part) => Some(&part.destructors),
            None => None,
        }
    }

    /// A hart wrote some bytes.
    ///
    /// # Errors
    ///
    /// Want of memory. Nothing has changed then.
    pub fn wrote(&mut self, hart: HartId, bytes: &[u8]) -> Result<(), AllocError>
        requires { MayWrite bytes.now }
        ensures ok { OnOk result (self.new ≡ appended self.old (Wrote hart bytes.now)) }
        ensures err { OnErr result (self.new ≡ self.old) }
    {
        let bytes = Bytes::from_slice(self.alloc, bytes)?;
        self.journal.make_room(1)?;
        self.journal.push(Event::Wrote { hart, bytes });
        Ok(())
    }

    /// A hart is told the refusal that is kept for it, if there is one (dlerror(3)); then none is.
    ///
    /// # Errors
    ///
    /// Want of memory. Nothing has changed then.
    pub fn told(&mut self, hart: HartId) -> Result<Option<DlFault>, AllocError>
        ensures fault { IfOk result (λ fault. fault ≡ kept_for (after self.old.events) hart) }
        ensures ok { IfOk result (λ fault. self.new ≡ appended self.old (Told hart fault)) }
        ensures err { OnErr result (self.new ≡ self.old) }
    {
        let fault = kept_copy(self.alloc, &self.kept, hart)?;
        self.journal.make_room(1)?;
        let told = self.kept.take(hart);
        self.journal.push(Event::Told { hart, fault });
        Ok(told)
    }

    /// A call of a hart is refused, and the refusal kept for it.
    ///
    /// # Errors
    ///
    /// Want of memory. Nothing has changed then.
    pub fn apply_refusal(
        &mut self,
        hart: HartId,
        ask: Ask,
        fault: DlFault,
    ) -> Result<(), AllocError>
        requires { MayFollow self.old.harts self.old.events (refusal hart ask fault) }
        ensures ok { OnOk result (self.new ≡ appended self.old (refusal hart ask fault)) }
        ensures err { OnErr result (self.new ≡ self.old) }
    {
        match room_for_refusal(self.alloc, &mut self.kept, &mut self.journal, &fault) {
            Ok(copy) => {
                self.kept.keep(hart, copy);
                self.journal.push(refusal_event(hart, ask, fault));
                Ok(())
            }
            Err(error) => Err(error),
        }
    }

    /// A slot's function is called for the first time: `eights` is eight times the slot's number. The hart
    /// gets a grant of the slot, to put what the slot chooses now into it.
    ///
    /// # Errors
    ///
    /// That no such object is mapped, that it has no such slot, that nothing defines the slot's symbol or what
    /// does isn't code, which is noted, or want of memory.
    pub fn grant(&mut self, hart: HartId, owner: u64, eights: u64) -> Result<Granted, GrantFault>
        requires free { HasNoGrant (after self.old.events) hart }
        ensures ok { IfOk result (λ g. IsGranted self.old hart owner eights g self.new) }
        ensures err { IfErr result (λ e. IsNotGranted self.old hart owner eights e self.new) }
    {
        let serial = Serial::new(owner);
        match self.chosen(serial, eights) {
            Ok(chosen) => self.grant_choice(hart, serial, eights, &chosen),
            Err(SlotFault::Unloaded) => Err(GrantFault::Unloaded(owner)),
            Err(SlotFault::NoSlot) => Err(GrantFault::NoSlot(serial, eights)),
            Err(SlotFault::Memory) => Err(GrantFault::Memory),
        }
    }

    /// What a slot chooses now, by the search lists of its namespace: these are made if they aren't there.
    fn chosen(&mut self, owner: Serial, eights: u64) -> Result<SlotChoice, SlotFault>
        ensures ok { IfOk result (ChoosesSlot (after self.old.events) owner eights) }
        ensures err { IfErr result (IsFaultOf (after self.old.events) owner eights) }
        ensures same { self.new ≡ self.old }
    {
        objects_are_apart();
        objects_are_read();
        one_object();
        one_image();
        let _ = self.journal.journal();
        self.namespaces.slot_choice(self.alloc, owner, eights)
    }

    /// The hart gets a grant of a slot, or notes that the slot may not be bound.
    fn grant_choice(
        &mut self,
        hart: HartId,
        owner: Serial,
        eights: u64,
        chosen: &SlotChoice,
    ) -> Result<Granted, GrantFault>
        requires free { HasNoGrant (after self.old.events) hart }
        requires chosen { ChoosesSlot (after self.old.events) owner eights chosen.now }
        ensures ok { IfOk result (λ g. IsGranted self.old hart owner eights g self.new) }
        ensures err { IfErr result (λ e. IsNotGranted self.old hart owner eights e self.new) }
    {
        if chosen.code {
            return self.post(hart, owner, eights, chosen);
        }
        if self.note_unresolved(hart, owner, chosen).is_err() {
            return Err(GrantFault::Memory);
        }
        if is_missing(&chosen.choice) {
            Err(GrantFault::Missing(owner, chosen.slot))
        } else {
            Err(GrantFault::NotCode(owner, chosen.slot))
        }
    }

    /// The hart gets a grant of a slot.
    fn post(
        &mut self,
        hart: HartId,
        owner: Serial,
        eights: u64,
        chosen: &SlotChoice,
    ) -> Result<Granted, GrantFault>
        requires free { HasNoGrant (after self.old.events) hart }
        requires chosen { ChoosesSlot (after self.old.events) owner eights chosen.now }
        requires code { IsTrue chosen.now.code }
        ensures ok { IfOk result (λ g. IsGranted self.old hart owner eights g self.new) }
        ensures err { IfErr result (λ e. IsNotGranted self.old hart owner eights e self.new) }
    {
        edges_follow();
        let _ = self.journal.journal();
        let Some(number) = self.settling.next() else {
            return Err(GrantFault::Memory);
        };
        match room_for_grant(&mut self.settling, &mut self.edges, &mut self.journal) {
            Ok(()) => {
                open_grant(&mut self.settling, hart, owner, chosen);
                self.journal.push(grant_event(number, hart, owner, chosen));
                let event = self.journal.journal().len() as u64;
                Ok(granted(event, number, owner, chosen))
            }
            Err(_) => Err(GrantFault::Memory),
        }
    }

    /// A slot may not be bound.
    fn note_unresolved(
        &mut self,
        hart: HartId,
        owner: Serial,
        chosen: &SlotChoice,
    ) -> Result<(), AllocError>
        requires { MayFollow self.old.harts self.old.events (Unresolved hart owner chosen.now.slot chosen.now.choice) }
        ensures ok { OnOk result (self.new ≡ appended self.old (Unresolved hart owner chosen.now.slot chosen.now.choice)) }
        ensures err { OnErr result (self.new ≡ self.old) }
    {
        self.journal.make_room(1)?;
        self.journal.push(unresolved_event(hart, owner, chosen));
        Ok(())
    }

    /// A grant is settled: its slot got its value, or had the word that its hart saw.
    pub fn settle(&mut self, grant: GrantNo, won: bool, saw: u64)
        requires { MayFollow self.old.harts self.old.events (settled grant won saw) }
        ensures { self.new ≡ appended self.old (settled grant won saw) }
    {
        grants_are_tidy();
        edges_follow();
        let _ = self.journal.journal();
        let granting = self.settling.settle(grant);
        hold(&mut self.edges, granting, won);
        self.journal.push_owed(settled_event(grant, won, saw));
    }

    /// The constructors of an object have run: it is ready.
    pub fn initialised(&mut self, hart: HartId, serial: Serial)
        requires { MayFollow self.old.harts self.old.events (Init hart serial) }
        ensures { self.new ≡ appended self.old (Init hart serial) }
    {
        legal_step_by_step();
        events_are_owed();
        finalised_once();
        edges_follow();
        let _ = self.journal.journal();
        self.namespaces.make_ready(self.alloc, serial);
        self.unfinished.push(serial);
        self.journal.push_owed(Event::Init {
            hart,
            object: serial,
        });
    }

    /// The destructors of an object have run.
    pub fn finalised(&mut self, hart: HartId, serial: Serial)
        requires { MayFollow self.old.harts self.old.events (Fini hart serial) }
        ensures { self.new ≡ appended self.old (Fini hart serial) }
    {
        self.unfinished.remove(serial);
        self.journal.push_owed(Event::Fini {
            hart,
            object: serial,
        });
    }

    /// A hart ends: once, and hart 0 once more, in the final destructors.
    pub fn ended(&mut self, hart: HartId, end: HartEnd)
        requires hart { hart < self.old.harts }
        requires times { times_ended hart (after self.old.events).endings < ends_at_most hart }
        requires may { MayFollow self.old.harts self.old.events (Ended hart «end») }
        ensures { self.new ≡ appended self.old (Ended hart «end») }
    {
        let event = end_event(hart, &end);
        self.journal.push_owed(event);
    }
}
