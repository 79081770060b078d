//! Openings that load something, or raise a count.

ghost use Rattle.std.specs.Prelude.{◌≡◌, ◌+◌, ◌<◌, ◌^◌, ◌||◌, if◌then◌else◌, length, IfOk, IsTrue, OnErr, OnOk};
ghost use Rattle.link_images.specs.ImageReads.Reads.{ArePrepared};
ghost use Rattle.history_journal.specs.Following.{MayFollow};
ghost use Rattle.history_event.specs.declared.event.Event.TheVariants.{Open};
ghost use Rattle.history_event.specs.declared.event.OpenAnswer.TheVariants.{Absent, Done};
ghost use Rattle.history_state.specs.After.{after};
ghost use Rattle.history_state.specs.Flags.{is_now};
ghost use Rattle.history_state.specs.Step.{binds, seen_after};
ghost use Rattle.history_calls.specs.Served.{AreInstalls, InstallsNothing};
ghost use Rattle.link_state.specs.Opening.{AreChosen, IsPut, event_of};
ghost use Rattle.link_state.specs.Table.{appended};
ghost use Rattle.link_holds.specs.OpeningBrings.Brought.{IsBrought, OfLists, done};
ghost use Rattle.link_open_images.specs.Relocated.{AreChoices};

use crate::LinkState;
use history_calls::Installs;
use history_event::{ChoiceLists, Choices, OpenAnswer, OpenAsk, Opening, Ranges};
use history_state::edges_follow;
use ld_base::{Added, HartId, NsId, Serial};
use link_holds::{
    Brings, OpeningCounts, Planned, absent_event, nothing, opened_event, prepare, room_for_opening,
};
use link_lists::{Copied, is_global, is_now};
use link_open_images::{hold_all, keep_all, reserve_all};
use link_open_laws::{closings_take_as_much, new_ranges_are_laid};
use link_spaces::namespaces_are_numbered_apart;
use std::alloc::AllocError;

impl LinkState {
    /// An opening is carried out: what memory gets of its new objects. An absent one is noted.
    ///
    /// The opening may come next, isn't refused, and its choices are those of the state with the new
    /// objects in it.
    ///
    /// # Errors
    ///
    /// Want of memory. Nothing has changed then.
    pub fn apply_open(&mut self, opening: Opening) -> Result<Installs, AllocError>
        requires may { MayFollow self.old.harts self.old.events (event_of opening) }
        requires chosen { AreChosen (after self.old.events) opening.ask opening.choices opening.answer }
        ensures ok { OnOk result (self.new ≡ appended self.old (event_of opening)) }
        ensures installs { IfOk result (IsPut (after self.new.events) opening.answer) }
        ensures err { OnErr result (self.new ≡ self.old) }
    {
        let Opening {
            hart,
            ask,
            answer,
            choices,
        } = opening;
        match answer {
            OpenAnswer::Done {
                ns,
                root,
                added,
                ranges,
            } => {
                let added = self.share(added)?;
                self.open_new(hart, ask, ns, root, added, ranges, &choices)
            }
            OpenAnswer::Absent | OpenAnswer::Refused(_) => self.note_absent(hart, ask),
        }
    }

    /// The object isn't there.
    ///
    /// # Errors
    ///
    /// Want of memory. Nothing has changed then.
    fn note_absent(&mut self, hart: HartId, ask: OpenAsk) -> Result<Installs, AllocError>
        requires { MayFollow self.old.harts self.old.events (Open hart ask Absent) }
        ensures ok { OnOk result (self.new ≡ appended self.old (Open hart ask Absent)) }
        ensures installs { IfOk result InstallsNothing }
        ensures err { OnErr result (self.new ≡ self.old) }
    {
        self.journal.make_room(1)?;
        self.journal.push(absent_event(hart, ask));
        Ok(nothing(self.alloc))
    }

    /// The new objects, in the memory of those that were loaded before and say the same.
    ///
    /// # Errors
    ///
    /// Want of memory.
    fn share(&mut self, added: Added) -> Result<Added, AllocError>
        ensures added { IfOk result (λ shared. shared ≡ added) }
        ensures same { self.new ≡ self.old }
    {
        self.known.share(self.alloc, added)
    }

    /// An opening that isn't absent: what memory gets of its new objects.
    ///
    /// # Errors
    ///
    /// Want of memory. Nothing has changed then.
    fn open_new(
        &mut self,
        hart: HartId,
        ask: OpenAsk,
        ns: NsId,
        root: Serial,
        added: Added,
        ranges: Ranges,
        choices: &ChoiceLists,
    ) -> Result<Installs, AllocError>
        requires may { MayFollow self.old.harts self.old.events (Open hart ask (Done ns root added ranges)) }
        requires choices { AreChoices (seen_after (after self.old.events) ask ns root added) (binds (after self.old.events) ask) added choices.now }
        ensures ok { OnOk result (self.new ≡ appended self.old (Open hart ask (Done ns root added ranges))) }
        ensures installs { IfOk result (AreInstalls (after self.new.events) added ranges) }
        ensures prepared { IfOk result (λ made. ArePrepared (after self.new.events) added made.images) }
        ensures err { OnErr result (self.new ≡ self.old) }
    {
        if !has_serials(self.loads.next(), added.len()) {
            return Err(AllocError);
        }
        let planned = Planned {
            hart,
            ask: &ask,
            ns,
            root,
            added: added.as_slice(),
            ranges: ranges.as_slice(),
        };
        let brings = self.bring(&planned, choices.as_slice())?;
        let copies = added.copy(self.alloc)?;
        self.take_in(hart, ask, ns, root, added, ranges, copies, brings)
    }

    /// What an opening brings.
    fn bring(&self, planned: &Planned, choices: &[Choices]) -> Result<Brings, AllocError>
        requires may { MayFollow self.now.harts self.now.events (done planned.now) }
        requires choices { AreChoices (seen_after (after self.now.events) planned.now.ask.now planned.now.ns planned.now.root planned.now.added.now)
            (binds (after self.now.events) planned.now.ask.now) planned.now.added.now choices.now }
        ensures { IfOk result (IsBrought (after self.now.events) planned.now) }
    {
        let startup = self.loads.is_startup();
        prepare(
            self.alloc,
            &self.journal,
            self.namespaces.as_slice(),
            &self.modules,
            startup,
            binds(startup, self.loads.binds_now(), planned.ask.flags),
            planned,
            choices,
        )
    }

    /// The lists take in what an opening brings.
    fn take_in(
        &mut self,
        hart: HartId,
        ask: OpenAsk,
        ns: NsId,
        root: Serial,
        added: Added,
        ranges: Ranges,
        copies: Added,
        brings: Brings,
    ) -> Result<Installs, AllocError>
        requires may { MayFollow self.old.harts self.old.events (Open hart ask (Done ns root added ranges)) }
        requires copies { copies ≡ added }
        requires serials { (after self.old.events).next + length added < 2 ^ 62 }
        requires brought { OfLists (after self.old.events) hart ask ns root added ranges brings }
        ensures ok { OnOk result (self.new ≡ appended self.old (Open hart ask (Done ns root added ranges))) }
        ensures installs { IfOk result (λ made. made ≡ brings.installs) }
        ensures err { OnErr result (self.new ≡ self.old) }
    {
        edges_follow();
        namespaces_are_numbered_apart();
        new_ranges_are_laid();
        closings_take_as_much();
        let _ = self.journal.journal();
        let counts = counts_of(&added, &ranges, &brings);
        room_for_opening(
            &mut self.unfinished,
            &mut self.reserved,
            &mut self.parts,
            &mut self.edges,
            &mut self.loads,
            &mut self.journal,
            &counts,
        )?;
        let global = is_global(ask.flags);
        self.namespaces
            .open_in(self.alloc, ns, copies, root, global)?;
        let Brings {
            modules,
            edges,
            parts,
            installs,
        } = brings;
        reserve_all(&mut self.reserved, ranges.as_slice());
        hold_all(&mut self.edges, edges.as_slice());
        keep_all(&mut self.parts, parts);
        self.loads.note(ask.flags, root, added.as_slice());
        self.modules = modules;
        self.journal
            .push(opened_event(hart, ask, ns, root, added, ranges));
        Ok(installs)
    }
}

/// Serials and events are counted up to this number.
const LIMIT: u64 = 1 << 62;

/// How many things an opening brings.
fn counts_of(added: &Added, ranges: &Ranges, brings: &Brings) -> OpeningCounts
    ensures objects { result.objects ≡ length added.now }
    ensures ranges { result.ranges ≡ length ranges.now }
    ensures edges { result.edges ≡ length brings.now.edges.items }
    ensures parts { result.parts ≡ length brings.now.parts.items }
{
    OpeningCounts {
        objects: added.len(),
        ranges: ranges.len(),
        edges: brings.edges.len(),
        parts: brings.parts.len(),
    }
}

/// Whether slots are bound at load by an opening with these flags: `startup` says whether it is the first.
fn binds(startup: bool, run: bool, flags: u64) -> bool
    ensures { result ≡ ((if startup then is_now flags else run) || is_now flags) }
{
    is_now(flags) || (!startup && run)
}

/// Whether there are serials for so many objects more.
fn has_serials(next: Serial, objects: usize) -> bool
    ensures { IsTrue result → next + objects < 2 ^ 62 }
{
    next.number() < LIMIT && (objects as u64) < LIMIT - next.number()
}
