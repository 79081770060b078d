//! Look-ups of symbols.

ghost use Rattle.std.specs.Prelude.{◌≡◌, ◌↔◌, ℕ, List, length, Some, None, IfErr, IfOk, IsTrue};
ghost use Rattle.history_event.specs.declared.event.Event.{Event};
ghost use Rattle.history_event.specs.declared.event.Event.TheVariants.{Sym};
ghost use Rattle.history_event.specs.declared.event.SymAsk.{SymAsk as Asks};
ghost use Rattle.history_state.specs.After.{after};
ghost use Rattle.history_state.specs.Lookup.{IsShort, wanted_of};
ghost use Rattle.history_state.specs.Objects.{has_namespace};
ghost use Rattle.history_state.specs.Storage.{tls_block};
ghost use Rattle.link_search.specs.Finding.{IsSymFault};
ghost use Rattle.trace_replay.specs.Shown.{Shows};
ghost use Rattle.trace_rows.specs.Looking.{ComesOfLooking, Finds, FindsVariable, IsOfLength, IsRefusalFor};
ghost use Rattle.trace_rows.specs.Rows.{IsDecided};

use crate::rows::all;
use crate::rows::blocks::{block_of, place};
use crate::said::same_found;
use address_space::NoRoom;
use elf_object::one_object;
use history_event::{SymAnswer, SymAsk};
use history_journal::accepted_object;
use history_state::{objects_are_read, symbols_are_stored};
use ld_base::{Choice, DlFault, HartId, Serial, Want};
use link_lists::Copied;
use link_search::{SymFault, find_symbol, variable_in};
use link_spaces::{address_of, namespace_in};
use std::alloc::{AllocError, Global};
use trace_replay::Replay;

/// How many bytes of a name are known where it is too long.
const LONG_NAME: usize = 256;

/// Whether name and version of a look-up are short enough.
#[derive(Clone, Copy, PartialEq, Eq)]
pub(crate) enum Length {
    Short,
    TooLong,
    /// No look-up knows so much of what is too long.
    Overlong,
}

/// Whether a hart's look-up may have this answer.
///
/// # Errors
///
/// Want of memory.
pub(crate) fn may_answer(
    alloc: Global,
    replay: &Replay,
    hart: HartId,
    ask: &SymAsk,
    answer: &SymAnswer,
) -> Result<bool, AllocError>
    ensures { IfOk result (λ may. IsDecided replay.now (Sym hart ask.now answer.now) may) }
{
    let expected = look_up(alloc, replay, hart, ask)?;
    let is_there = namespace_in(replay.namespaces(), ask.ns).is_some();
    Ok(all(&[is_there, is_answer(&expected, answer)]))
}

/// Whether this is the answer.
fn is_answer(expected: &Option<SymAnswer>, answer: &SymAnswer) -> bool
    ensures { IsTrue result ↔ (expected.now ≡ Some answer.now) }
{
    match expected {
        Some(expected) => same_found(expected, answer),
        None => false,
    }
}

/// What a hart's look-up answers; none where it asks for too much, or is answered once the hart has a block.
///
/// # Errors
///
/// Want of memory.
fn look_up(
    alloc: Global,
    replay: &Replay,
    hart: HartId,
    ask: &SymAsk,
) -> Result<Option<SymAnswer>, AllocError>
    ensures { IfOk result (λ found. (past : List Event) → Shows past replay.now → IsTrue (has_namespace (after past) ask.now.ns)
        → ComesOfLooking (after past) hart ask.now found) }
{
    match length_of(ask) {
        Length::Short => search(alloc, replay, hart, ask),
        Length::TooLong => Ok(Some(SymAnswer::Refused(DlFault::NameTooLong))),
        Length::Overlong => Ok(None),
    }
}

/// Whether name and version may be asked for.
fn length_of(ask: &SymAsk) -> Length
    ensures { IsOfLength ask.now result }
{
    let name = ask.name.as_bytes().len();
    match &ask.version {
        None => length_alone(name),
        Some(version) => length_with(name, version.as_bytes().len()),
    }
}

/// The same of a name of this length, where no version is asked for.
fn length_alone(name: usize) -> Length
    ensures { (ask : Asks) → length ask.name ≡ name → ask.version ≡ None → IsOfLength ask result }
{
    if name < LONG_NAME {
        Length::Short
    } else if name == LONG_NAME {
        Length::TooLong
    } else {
        Length::Overlong
    }
}

/// The same where a version of this length is asked for, too.
fn length_with(name: usize, version: usize) -> Length
    ensures { (ask : Asks) (text : List ℕ) → length ask.name ≡ name → ask.version ≡ Some text → length text ≡ version → IsOfLength ask result }
{
    if name >= LONG_NAME {
        return Length::Overlong;
    }
    if version < LONG_NAME {
        Length::Short
    } else if version == LONG_NAME {
        Length::TooLong
    } else {
        Length::Overlong
    }
}

/// What a hart's look-up of a name and a version that may be asked for answers.
///
/// # Errors
///
/// Want of memory.
fn search(
    alloc: Global,
    replay: &Replay,
    hart: HartId,
    ask: &SymAsk,
) -> Result<Option<SymAnswer>, AllocError>
    requires { IsShort ask.now }
    ensures { IfOk result (λ found. (past : List Event) → Shows past replay.now → IsTrue (has_namespace (after past) ask.now.ns)
        → ComesOfLooking (after past) hart ask.now found) }
{
    match find(alloc, replay, ask) {
        Ok((serial, index)) => definition(replay, hart, ask, serial, index),
        Err(why) => refused(why),
    }
}

/// The answer of a look-up that finds nothing.
///
/// # Errors
///
/// Want of memory.
fn refused(why: SymFault) -> Result<Option<SymAnswer>, AllocError>
    ensures { IfOk result (IsRefusalFor why) }
{
    match why {
        SymFault::Refused(fault) => Ok(Some(SymAnswer::Refused(fault))),
        SymFault::Memory => Err(AllocError),
    }
}

/// The definition that a look-up finds.
///
/// # Errors
///
/// Why it finds none, or want of memory.
fn find(alloc: Global, replay: &Replay, ask: &SymAsk) -> Result<(Serial, u32), SymFault>
    requires { IsShort ask.now }
    ensures found { IfOk result (λ p. (past : List Event) → Shows past replay.now → Finds (after past) ask.now p.0 p.1) }
    ensures refused { IfErr result (λ e. (past : List Event) (hart : ℕ) → Shows past replay.now → IsTrue (has_namespace (after past) ask.now.ns)
        → IsSymFault (after past) hart ask.now e) }
{
    objects_are_read();
    one_object();
    replay.has_history();
    let want = want_of(alloc, ask)?;
    find_symbol(alloc, replay.namespaces(), ask, &want)
}

/// What is wanted: dlsym's or dlvsym's.
///
/// # Errors
///
/// Want of memory.
fn want_of(alloc: Global, ask: &SymAsk) -> Result<Want, AllocError>
    ensures { IfOk result (λ want. want ≡ wanted_of ask.now.version) }
{
    match &ask.version {
        Some(version) => Ok(Want::Dlvsym(version.copy(alloc)?)),
        None => Ok(Want::Dlsym),
    }
}

/// Where a definition is.
///
/// # Errors
///
/// Want of memory.
fn definition(
    replay: &Replay,
    hart: HartId,
    ask: &SymAsk,
    serial: Serial,
    index: u32,
) -> Result<Option<SymAnswer>, AllocError>
    requires { (past : List Event) → Shows past replay.now → Finds (after past) ask.now serial index }
    ensures { IfOk result (λ found. (past : List Event) → Shows past replay.now → ComesOfLooking (after past) hart ask.now found) }
{
    match variable_in(replay.namespaces(), serial, index) {
        Some(offset) => variable(replay, hart, ask, serial, index, offset),
        None => {
            let value = address_of(replay.namespaces(), Choice::Def(serial, index));
            Ok(Some(SymAnswer::Found(serial, index, value)))
        }
    }
}

/// Where a variable is in a hart's block.
///
/// # Errors
///
/// Want of memory.
fn variable(
    replay: &Replay,
    hart: HartId,
    ask: &SymAsk,
    serial: Serial,
    index: u32,
    offset: u64,
) -> Result<Option<SymAnswer>, AllocError>
    requires { (past : List Event) → Shows past replay.now → FindsVariable (after past) ask.now serial index offset }
    ensures { IfOk result (λ found. (past : List Event) → Shows past replay.now → ComesOfLooking (after past) hart ask.now found) }
{
    match block_of(replay, hart, serial)? {
        Some(block) => {
            let value = block.wrapping_add(offset);
            Ok(Some(SymAnswer::Found(serial, index, value)))
        }
        None => Ok(without_block(replay, hart, ask, serial, index, offset)),
    }
}

/// That there is no room for a hart's block; none where there is, and the hart gets it first.
fn without_block(
    replay: &Replay,
    hart: HartId,
    ask: &SymAsk,
    serial: Serial,
    index: u32,
    offset: u64,
) -> Option<SymAnswer>
    requires finds { (past : List Event) → Shows past replay.now → FindsVariable (after past) ask.now serial index offset }
    requires none { (past : List Event) → Shows past replay.now → tls_block (after past) hart serial ≡ None }
    ensures { (past : List Event) → Shows past replay.now → ComesOfLooking (after past) hart ask.now result }
{
    symbols_are_stored();
    accepted_object();
    let Some(segment) = replay.segment(serial) else {
        return None;
    };
    match place(replay.regions(), segment) {
        Ok(_) => None,
        Err(NoRoom(pages)) => Some(SymAnswer::Refused(DlFault::AddressSpaceFull(pages))),
    }
}
