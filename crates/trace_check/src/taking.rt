//! One line: read, compared with the event that may come, and taken in.

ghost use Rattle.std.specs.Prelude.{◌≡◌, ◌≤◌, ℕ, false, true, is_ok, List, Err, IfErr, IfOk, IfSome, IsTrue, OnOk};
ghost use Rattle.history_event.specs.declared.event.Event.{Event};
ghost use Rattle.history_journal.specs.Following.{machine_of};
ghost use Rattle.history_state.specs.Setting.{Setting};
ghost use Rattle.library_source.specs.Count.{Rises};
ghost use Rattle.trace_check.specs.Rows.{ComesOf, FindsNone, IsChecked, IsDoubtOf, MayBeTaken, TakesFound, refusal_of};
ghost use Rattle.trace_opens.specs.OpeningRows.Expected.{trace_run};
ghost use Rattle.trace_opens.specs.declared.failed_paths.judging.Doubt.TheVariants.{Memory, ReadFault};
ghost use Rattle.trace_read.specs.Lines.{HasLine};
ghost use Rattle.trace_read.specs.Said.{said_of};
ghost use Rattle.trace_replay.specs.Shown.{Shows};
ghost use Rattle.trace_replay.specs.Taken.{Follows, OpensNothing, Takes, event_of};
ghost use Rattle.trace_rows.specs.Rows.{IsNoOpening};

use crate::verdict::TraceCause;
use history_event::{Event, EventLine, OpenAsk, OpenLine, Opening};
use ld_base::{HartId, Names};
use library_source::Library;
use std::alloc::{AllocError, Global};
use trace_opens::{Doubt, expected_open};
use trace_read::{TraceFault, read_event};
use trace_replay::Replay;
use trace_rows::{expected, says_open};

/// Takes in the event that a line is, if it may come. Answers why the line is refused, if it is.
///
/// # Errors
///
/// That the library failed to read a path, which its count shows, or want of memory.
pub(crate) fn take_line<L: Library>(
    alloc: Global,
    replay: &mut Replay,
    line: &[u8],
    folders: &Names,
    library: L,
) -> (Result<Option<TraceCause>, Doubt>, L)
    requires { 1 ≤ replay.old.harts }
    ensures checked { IfOk result.0 (λ cause. (past : List Event) → Shows past replay.old
        → IsChecked (trace_run replay.old.harts folders.now (L.files library)) past line.now replay.new cause) }
    ensures path { IfErr result.0 (λ doubt. (past : List Event) → Shows past replay.old
        → IsDoubtOf (trace_run replay.old.harts folders.now (L.files library)) past line.now doubt) }
    ensures failed { IfErr result.0 (λ doubt. (failed : List ℕ) → doubt ≡ ReadFault failed → Rises (L.faults library) (L.faults result.1)) }
    ensures harts { replay.new.harts ≡ replay.old.harts }
    ensures files { L.files result.1 ≡ L.files library }
    ensures faults { L.faults library ≤ L.faults result.1 }
    ensures misses { L.misses library ≤ L.misses result.1 }
{
    match read_event(alloc, line) {
        Ok(said) => {
            let (may, library) = take_said(alloc, replay, &said, folders, library);
            (refusal(may), library)
        }
        Err(TraceFault::NotALine) => (Ok(Some(TraceCause::NotALine)), library),
        Err(TraceFault::Memory) => (Err(Doubt::Memory), library),
    }
}

/// Why a line is refused, by whether its event may come.
fn refusal(may: Result<bool, Doubt>) -> Result<Option<TraceCause>, Doubt>
    ensures { result ≡ refusal_of may }
{
    match may {
        Ok(true) => Ok(None),
        Ok(false) => Ok(Some(TraceCause::Illegal)),
        Err(doubt) => Err(doubt),
    }
}

/// Takes in the event that says so, if it may come. Answers whether it may.
///
/// # Errors
///
/// That the library failed to read a path, which its count shows, or want of memory.
fn take_said<L: Library>(
    alloc: Global,
    replay: &mut Replay,
    said: &EventLine,
    folders: &Names,
    library: L,
) -> (Result<bool, Doubt>, L)
    requires { 1 ≤ replay.old.harts }
    ensures comes { IfOk result.0 (λ may. (past : List Event) → Shows past replay.old
        → ComesOf (trace_run replay.old.harts folders.now (L.files library)) past said.now replay.new may) }
    ensures path { IfErr result.0 (λ doubt. (past : List Event) (line : List ℕ) → Shows past replay.old → HasLine line said.now
        → IsDoubtOf (trace_run replay.old.harts folders.now (L.files library)) past line doubt) }
    ensures failed { IfErr result.0 (λ doubt. (failed : List ℕ) → doubt ≡ ReadFault failed → Rises (L.faults library) (L.faults result.1)) }
    ensures harts { replay.new.harts ≡ replay.old.harts }
    ensures files { L.files result.1 ≡ L.files library }
    ensures faults { L.faults library ≤ L.faults result.1 }
    ensures misses { L.misses library ≤ L.misses result.1 }
{
    match said {
        EventLine::Open { hart, ask, answer } => {
            let (found, library) = expected_open(
                alloc, replay, *hart, ask, answer, folders, library,
            );
            (take_found(replay, found, said), library)
        }
        _ => (take_row(alloc, replay, said), library),
    }
}

/// Takes in the opening that was found, if the line is its own. Answers whether it is.
///
/// # Errors
///
/// Why none was found, or want of memory.
fn take_found(
    replay: &mut Replay,
    found: Result<Option<Opening>, Doubt>,
    said: &EventLine,
) -> Result<bool, Doubt>
    requires { IfOk found (λ found. IfSome found (MayBeTaken replay.old)) }
    ensures sure { IfOk result (λ _. is_ok found ≡ true) }
    ensures yes { IfOk result (λ may. IsTrue may → TakesFound found said.now replay.old replay.new) }
    ensures no { IfOk result (λ may. may ≡ false → FindsNone found said.now) }
    ensures failed { IfErr result (λ doubt. (failed : List ℕ) → doubt ≡ ReadFault failed → found ≡ Err (ReadFault failed)) }
    ensures harts { replay.new.harts ≡ replay.old.harts }
{
    match found? {
        Some(opening) => take_opening(replay, opening, said),
        None => Ok(false),
    }
}

/// Takes in an opening, if the line is its own. Answers whether it is.
///
/// # Errors
///
/// Want of memory.
fn take_opening(replay: &mut Replay, opening: Opening, said: &EventLine) -> Result<bool, Doubt>
    requires { MayBeTaken replay.old opening }
    ensures yes { IfOk result (λ may. IsTrue may → said_of (event_of opening) ≡ said.now) }
    ensures takes { IfOk result (λ may. IsTrue may → Takes replay.old (event_of opening) replay.new) }
    ensures no { IfOk result (λ may. may ≡ false → ¬ (said_of (event_of opening) ≡ said.now)) }
    ensures memory { IfErr result (λ doubt. doubt ≡ Memory) }
    ensures harts { replay.new.harts ≡ replay.old.harts }
{
    if !says_open(said, opening.hart, &opening.ask, &opening.answer) {
        return Ok(false);
    }
    replay.open(opening)?;
    Ok(true)
}

/// Takes in the event that says so, any but an opening, if it may come. Answers whether it may.
///
/// # Errors
///
/// Want of memory.
fn take_row(alloc: Global, replay: &mut Replay, said: &EventLine) -> Result<bool, Doubt>
    requires { IsNoOpening said.now }
    ensures comes { IfOk result (λ may. (w : Setting) (past : List Event) → w.machine ≡ machine_of replay.old.harts → Shows past replay.old
        → ComesOf w past said.now replay.new may) }
    ensures memory { IfErr result (λ doubt. doubt ≡ Memory) }
    ensures harts { replay.new.harts ≡ replay.old.harts }
{
    match expected(alloc, replay, said)? {
        Some(event) => {
            take_event(replay, event)?;
            Ok(true)
        }
        None => Ok(false),
    }
}

/// Takes in an event that may come, any but an opening.
///
/// # Errors
///
/// Want of memory.
fn take_event(replay: &mut Replay, event: Event) -> Result<(), AllocError>
    requires follows { Follows replay.old event }
    requires opens { OpensNothing event }
    ensures takes { OnOk result (Takes replay.old event replay.new) }
    ensures harts { replay.new.harts ≡ replay.old.harts }
{
    replay.take_in(&event)
}
