//! Turns that the linker's state takes alone.

ghost use Rattle.std.specs.Prelude.{◌≡◌, ◌<◌, ℕ, true, if◌then◌else◌, length, drop};
ghost use Rattle.hart_moves.specs.Due.{due};
ghost use Rattle.hart_moves.specs.Moves.{ended, freed, returning, spent};
ghost use Rattle.hart_moves.specs.Due.{back};
ghost use Rattle.hart_moves.specs.Harts.Resolving.{to_exchange};
ghost use Rattle.hart_moves.specs.Waiting.{awaiting};
ghost use Rattle.hart_seat.specs.HartParts.Views.{call_in, offered_of};
ghost use Rattle.history_calls.specs.CallLaws.Coming.{IsOver};
ghost use Rattle.history_calls.specs.Gives.{variable_at};
ghost use Rattle.history_event.specs.declared.event.Event.TheVariants.{Ended};
ghost use Rattle.history_journal.specs.Following.{machine_of};
ghost use Rattle.history_state.specs.After.{after};
ghost use Rattle.history_state.specs.State.{State};
ghost use Rattle.link_keeper.specs.Acting.{Acts, AsksStorage, MayAct, MayCall, NotLocating, OpenNothing, asks, may_give_block, storage_of};
ghost use Rattle.link_state.specs.Table.{appended};
ghost use Rattle.world_answers.specs.Answers.{is_service};
ghost use Rattle.world_answers.specs.GuestsPart.GuestWorlds.Worlds.{MayEndNow};
ghost use Rattle.world_answers.specs.Openings.{TurnReadsNothing};
ghost use Rattle.world_memory.specs.declared.turn_answers.answered.MemoryChange.TheVariants as change;
ghost use Rattle.world_turns.specs.Counts.{ShowInCounts};

use hart_fits::harts_fit;
use hart_linker::{HartBlocks, RunNaming};
use hart_seat::{Call, Due, LinkedHart, Offered, variable_at};
use history_event::HartEnd;
use ld_base::{HartId, Names, Shown};
use library_source::Library;
use link_state::LinkState;
use std::alloc::Global;
use world_answers::{answer_with_room, awaited, complete, ends_are_few, take_answer, tls_end};
use world_memory::{Answered, MemoryChange};
use world_turns::{counts_show, functions_may_pass, turns_keep_writes};

/// By what a turn is answered.
#[derive(Clone, Copy)]
pub(crate) enum Reply {
    /// By its events, of which the first isn't a grant.
    Events,
    /// By a grant, which is its one event.
    Granted(Offered),
    /// By the hart's block of a module, which was there: the module's number, and the block.
    Block(u64, u64),
    /// Its call is to be tried again, or it waits still.
    Again(Shown),
}

/// What came of a turn.
#[derive(Drop)]
pub(crate) struct Acted {
    pub(crate) reply: Reply,
    /// What memory gets of its events.
    pub(crate) change: MemoryChange,
}

/// What a call asks of thread-local storage.
#[derive(Clone, Copy)]
pub(crate) enum Storage {
    /// Nothing.
    Nothing,
    /// A look-up may find a variable there.
    LookUp,
    /// Where a variable is: the number of its module, and its offset.
    Locate(u64, u64),
}

/// Takes a hart's turn that asks: the turn in which the functions of an object have run, a call, or one that
/// waits still. Where memory is wanted the hart ends.
pub(crate) fn act<J: RunNaming, L: Library>(
    alloc: Global,
    state: &mut LinkState,
    id: HartId,
    hart: &mut LinkedHart,
    blocks: &mut HartBlocks,
    folders: &Names,
    library: &mut L,
) -> Acted
    requires may { MayAct J.setting state.old id hart.old.hart }
    requires over { IsOver (machine_of state.old.harts) folders.now (L.files library.old) J.setting }
    ensures acts { Acts J.setting state.old.events state.new id hart.old.hart hart.new.hart blocks.new.spare result.change result.reply }
    ensures shown { ShowInCounts folders.now (drop (length state.old.events) state.new.events)
        (record { faults = L.faults library.old; misses = L.misses library.old }) (record { faults = L.faults library.new; misses = L.misses library.new }) }
    ensures unread { TurnReadsNothing (after state.old.events) (due (after state.old.events) hart.old.hart) → library.new ≡ library.old }
    ensures files { L.files library.new ≡ L.files library.old }
    ensures entries { blocks.new.entries ≡ blocks.old.entries }
    ensures generation { blocks.new.generation ≡ blocks.old.generation }
    ensures harts { state.new.harts ≡ state.old.harts }
{
    functions_may_pass();
    counts_show();
    if complete(state, id, hart) {
        return Acted {
            reply: Reply::Events,
            change: MemoryChange::Nothing,
        };
    }
    match awaited(state, hart) {
        Some(shown) => wait(hart, &shown),
        None => call::<J, L>(alloc, state, id, hart, blocks, folders, library),
    }
}

/// The turn of a hart that waits.
fn wait(hart: &mut LinkedHart, shown: &Shown) -> Acted
    requires { hart.old.hart.turns < hart.old.hart.fuel }
    ensures hart { hart.new.hart ≡ spent (awaiting shown.now (freed hart.old.hart)) }
    ensures reply { result.reply ≡ Reply.Again shown.now }
    ensures change { result.change ≡ change.Nothing }
{
    hart.settle();
    hart.wait(*shown);
    hart.spend();
    Acted {
        reply: Reply::Again(*shown),
        change: MemoryChange::Nothing,
    }
}

/// The turn of a call. Where its hart may get a block of thread-local storage, room is made to keep it first.
fn call<J: RunNaming, L: Library>(
    alloc: Global,
    state: &mut LinkState,
    id: HartId,
    hart: &mut LinkedHart,
    blocks: &mut HartBlocks,
    folders: &Names,
    library: &mut L,
) -> Acted
    requires may { MayCall J.setting state.old id hart.old.hart }
    requires over { IsOver (machine_of state.old.harts) folders.now (L.files library.old) J.setting }
    ensures acts { Acts J.setting state.old.events state.new id hart.old.hart hart.new.hart blocks.new.spare result.change result.reply }
    ensures shown { ShowInCounts folders.now (drop (length state.old.events) state.new.events)
        (record { faults = L.faults library.old; misses = L.misses library.old }) (record { faults = L.faults library.new; misses = L.misses library.new }) }
    ensures unread { TurnReadsNothing (after state.old.events) (due (after state.old.events) hart.old.hart) → library.new ≡ library.old }
    ensures files { L.files library.new ≡ L.files library.old }
    ensures entries { blocks.new.entries ≡ blocks.old.entries }
    ensures generation { blocks.new.generation ≡ blocks.old.generation }
    ensures harts { state.new.harts ≡ state.old.harts }
{
    ends_are_few();
    harts_fit();
    counts_show();
    let asked = storage_of(hart);
    if asks_storage(asked) && blocks.make_room().is_err() {
        return end_call(state, id, hart, HartEnd::Memory);
    }
    match asked {
        Storage::Locate(number, offset) => locate::<J>(state, id, hart, number, offset),
        _ => ask::<J, L>(alloc, state, id, hart, folders, library),
    }
}

/// Whether a call asks something of thread-local storage.
fn asks_storage(asked: Storage) -> bool
    ensures { result ≡ asks asked }
{
    !matches!(asked, Storage::Nothing)
}

/// What a hart's call asks of thread-local storage.
fn storage_of(hart: &LinkedHart) -> Storage
    ensures { (s : State) → is_service (due s hart.now.hart) ≡ true → AsksStorage hart.now.hart (due s hart.now.hart) result }
{
    match hart.due() {
        Due::Serve(asked) => storage_by(&asked),
        Due::Wait(_, asked) => storage_by(&asked),
        _ => Storage::Nothing,
    }
}

/// What such a call asks of it.
fn storage_by(asked: &Call<'_>) -> Storage
    ensures { (s : State) → result ≡ storage_of (call_in s asked.now) }
{
    match asked {
        Call::Dlsym { .. } | Call::Dlvsym { .. } => Storage::LookUp,
        Call::Locate { number, offset } => Storage::Locate(*number, *offset),
        _ => Storage::Nothing,
    }
}

/// The call ends its hart, which is noted.
pub(crate) fn end_call(
    state: &mut LinkState,
    id: HartId,
    hart: &mut LinkedHart,
    reason: HartEnd,
) -> Acted
    requires fuel { hart.old.hart.turns < hart.old.hart.fuel }
    requires may { MayEndNow state.old.harts state.old.events id }
    ensures hart { hart.new.hart ≡ ended reason (spent hart.old.hart) }
    ensures noted { state.new ≡ appended state.old (Ended id reason) }
    ensures reply { result.reply ≡ Reply.Events }
    ensures change { result.change ≡ change.Nothing }
{
    stop(hart, &reason);
    state.ended(id, reason);
    Acted {
        reply: Reply::Events,
        change: MemoryChange::Nothing,
    }
}

/// The hart runs no further, behind this turn.
fn stop(hart: &mut LinkedHart, reason: &HartEnd)
    requires { hart.old.hart.turns < hart.old.hart.fuel }
    ensures { hart.new.hart ≡ ended reason.now (spent hart.old.hart) }
{
    hart.spend();
    hart.stop(*reason);
}

/// The turn of a request of thread-local storage (`__tls_get_addr`).
fn locate<J: RunNaming>(
    state: &mut LinkState,
    id: HartId,
    hart: &mut LinkedHart,
    number: u64,
    offset: u64,
) -> Acted
    requires may { MayCall J.setting state.old id hart.old.hart }
    requires asked { AsksStorage hart.old.hart (due (after state.old.events) hart.old.hart) (Storage.Locate number offset) }
    ensures acts { (spare : ℕ) → 0 < spare → Acts J.setting state.old.events state.new id hart.old.hart hart.new.hart spare result.change result.reply }
    ensures none { OpenNothing (drop (length state.old.events) state.new.events) }
    ensures harts { state.new.harts ≡ state.old.harts }
{
    ends_are_few();
    harts_fit();
    let count = state.journal().as_slice().len();
    match state.tls_block(id, number) {
        Ok(block) => {
            let is_new = state.journal().as_slice().len() > count;
            give_block(hart, number, offset, block, is_new)
        }
        Err(fault) => end_call(state, id, hart, tls_end(fault)),
    }
}

/// The request returns with the address of its variable in a block, which is new or was there.
fn give_block(hart: &mut LinkedHart, number: u64, offset: u64, block: u64, is_new: bool) -> Acted
    requires { hart.old.hart.turns < hart.old.hart.fuel }
    ensures hart { hart.new.hart ≡ spent (returning (back hart.old.hart) (variable_at block offset) (freed hart.old.hart)) }
    ensures reply { result.reply ≡ (if is_new then Reply.Events else Reply.Block number block) }
    ensures change { result.change ≡ change.Made }
{
    hart.settle();
    hart.return_with(variable_at(block, offset));
    hart.spend();
    let reply = if is_new {
        Reply::Events
    } else {
        Reply::Block(number, block)
    };
    Acted {
        reply,
        change: MemoryChange::Made,
    }
}

/// The turn of a call that is no request of thread-local storage.
fn ask<J: RunNaming, L: Library>(
    alloc: Global,
    state: &mut LinkState,
    id: HartId,
    hart: &mut LinkedHart,
    folders: &Names,
    library: &mut L,
) -> Acted
    requires may { MayCall J.setting state.old id hart.old.hart }
    requires over { IsOver (machine_of state.old.harts) folders.now (L.files library.old) J.setting }
    requires other { NotLocating (due (after state.old.events) hart.old.hart) }
    ensures acts { (spare : ℕ) → (may_give_block (due (after state.old.events) hart.old.hart) ≡ true → 0 < spare)
        → Acts J.setting state.old.events state.new id hart.old.hart hart.new.hart spare result.change result.reply }
    ensures shown { ShowInCounts folders.now (drop (length state.old.events) state.new.events)
        (record { faults = L.faults library.old; misses = L.misses library.old }) (record { faults = L.faults library.new; misses = L.misses library.new }) }
    ensures unread { TurnReadsNothing (after state.old.events) (due (after state.old.events) hart.old.hart) → library.new ≡ library.old }
    ensures files { L.files library.new ≡ L.files library.old }
    ensures harts { state.new.harts ≡ state.old.harts }
{
    ends_are_few();
    harts_fit();
    functions_may_pass();
    turns_keep_writes();
    counts_show();
    let came = answer_with_room(alloc, state, hart, id, folders, library);
    match came {
        Answered::Granted(offered) => offer(hart, &offered),
        Answered::Again(shown) => wait(hart, &shown),
        came => Acted {
            reply: Reply::Events,
            change: take_answer(state, id, hart, came),
        },
    }
}

/// A slot is granted: its exchange is next.
fn offer(hart: &mut LinkedHart, offered: &Offered) -> Acted
    requires { hart.old.hart.turns < hart.old.hart.fuel }
    ensures hart { hart.new.hart ≡ spent (record hart.old.hart { resolving = to_exchange (offered_of offered.now) }) }
    ensures reply { result.reply ≡ Reply.Granted offered.now }
    ensures change { result.change ≡ change.Nothing }
{
    hart.offer(*offered);
    hart.spend();
    Acted {
        reply: Reply::Granted(*offered),
        change: MemoryChange::Nothing,
    }
}
