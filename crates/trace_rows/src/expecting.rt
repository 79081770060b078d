//! The event that a line says.

ghost use Rattle.std.specs.Prelude.{◌≡◌, Some, IfNone, IfOk, IfSome};
ghost use Rattle.history_event.specs.declared.event.Event.TheVariants.{Sym};
ghost use Rattle.trace_rows.specs.Rows.{IsDecided, IsExpected, IsNoOpening, IsOfHart, IsOfSlot, NoneMayCome, unsaid};

use crate::rows::{
    may_answer, may_be_told, may_bind, may_close, may_end, may_finalise, may_grant, may_have_block,
    may_initialise, may_lose, may_not_bind, may_unmap, may_write,
};
use history_event::{CloseAnswer, Event, EventLine, Granting, Standing, SymAnswer, SymAsk};
use ld_base::{Bytes, HartId, Serials};
use link_lists::Copied;
use std::alloc::{AllocError, Global};
use trace_replay::Replay;

/// The event that a line says, if it may come next behind the history whose lists these are; of any line but an
/// opening's.
///
/// # Errors
///
/// Want of memory.
pub fn expected(
    alloc: Global,
    replay: &Replay,
    line: &EventLine,
) -> Result<Option<Event>, AllocError>
    requires no_opening { IsNoOpening line.now }
    ensures may { IfOk result (λ found. IfSome found (IsExpected replay.now line.now)) }
    ensures only { IfOk result (λ found. IfNone found (NoneMayCome replay.now line.now)) }
{
    if !may_come(alloc, replay, line)? {
        return Ok(None);
    }
    let event = event_of(alloc, line)?;
    Ok(Some(event))
}

/// Whether the event that a line says may come next.
///
/// # Errors
///
/// Want of memory.
fn may_come(alloc: Global, replay: &Replay, line: &EventLine) -> Result<bool, AllocError>
    requires { IsNoOpening line.now }
    ensures { IfOk result (λ may. IfSome (unsaid line.now) (λ e. IsDecided replay.now e may)) }
{
    match line {
        EventLine::Close {
            hart,
            handle,
            answer,
        } => may_close(alloc, replay, *hart, *handle, answer),
        EventLine::Unmapped { hart, set } => Ok(may_unmap(replay, *hart, set.as_slice())),
        EventLine::Sym { hart, ask, answer } => may_answer(alloc, replay, *hart, ask, answer),
        EventLine::Tls {
            hart,
            owner,
            address,
        } => may_have_block(replay, *hart, *owner, *address),
        EventLine::Init { hart, object } => Ok(may_initialise(replay, *hart, *object)),
        EventLine::Fini { hart, object } => Ok(may_finalise(replay, *hart, *object)),
        EventLine::Wrote { bytes, .. } => Ok(may_write(bytes.as_slice())),
        EventLine::Told { hart, fault } => Ok(may_be_told(replay, *hart, fault)),
        EventLine::Ended { hart, .. } => Ok(may_end(replay, *hart)),
        _ => slot_may_come(alloc, replay, line),
    }
}

/// The same of a line of a grant or of a slot that may not be bound.
///
/// # Errors
///
/// Want of memory.
fn slot_may_come(alloc: Global, replay: &Replay, line: &EventLine) -> Result<bool, AllocError>
    requires { IsOfSlot line.now }
    ensures { IfOk result (λ may. IfSome (unsaid line.now) (λ e. IsDecided replay.now e may)) }
{
    match line {
        EventLine::Grant {
            grant,
            hart,
            owner,
            slot,
            choice,
            value,
        } => {
            let grant = Granting {
                number: *grant,
                hart: *hart,
                owner: *owner,
                slot: *slot,
                choice: *choice,
                value: *value,
                standing: Standing::Open,
            };
            may_grant(alloc, replay, &grant)
        }
        EventLine::Unresolved {
            hart,
            owner,
            slot,
            choice,
        } => may_not_bind(alloc, replay, *hart, *owner, *slot, *choice),
        EventLine::Bound { grant } => Ok(may_bind(replay, *grant)),
        EventLine::Lost { grant, saw } => Ok(may_lose(replay, *grant, *saw)),
        _ => unreachable!(),
    }
}

/// The event that a line says.
///
/// # Errors
///
/// Want of memory.
fn event_of(alloc: Global, line: &EventLine) -> Result<Event, AllocError>
    requires { IsNoOpening line.now }
    ensures { IfOk result (λ event. unsaid line.now ≡ Some event) }
{
    match line {
        EventLine::Close {
            hart,
            handle,
            answer,
        } => {
            let (hart, handle) = (*hart, *handle);
            let answer = copied_closing(alloc, answer)?;
            Ok(Event::Close {
                hart,
                handle,
                answer,
            })
        }
        EventLine::Sym { hart, ask, answer } => symbol_event(alloc, *hart, ask, answer),
        EventLine::Unmapped { hart, set } => {
            let set = Serials::from_slice(alloc, set.as_slice())?;
            Ok(Event::Unmapped { hart: *hart, set })
        }
        EventLine::Wrote { hart, bytes } => {
            let bytes = Bytes::from_slice(alloc, bytes.as_slice())?;
            Ok(Event::Wrote { hart: *hart, bytes })
        }
        EventLine::Told { hart, fault } => {
            let fault = fault.copy(alloc)?;
            Ok(Event::Told { hart: *hart, fault })
        }
        EventLine::Tls { .. }
        | EventLine::Init { .. }
        | EventLine::Fini { .. }
        | EventLine::Ended { .. } => Ok(hart_event(line)),
        _ => Ok(slot_event(line)),
    }
}

/// The event that a line of a grant, or of a slot that may not be bound, says.
fn slot_event(line: &EventLine) -> Event
    requires { IsOfSlot line.now }
    ensures { unsaid line.now ≡ Some result }
{
    match line {
        EventLine::Grant {
            grant,
            hart,
            owner,
            slot,
            choice,
            value,
        } => Event::Grant {
            grant: *grant,
            hart: *hart,
            owner: *owner,
            slot: *slot,
            choice: *choice,
            value: *value,
        },
        EventLine::Unresolved {
            hart,
            owner,
            slot,
            choice,
        } => Event::Unresolved {
            hart: *hart,
            owner: *owner,
            slot: *slot,
            choice: *choice,
        },
        EventLine::Bound { grant } => Event::Bound { grant: *grant },
        EventLine::Lost { grant, saw } => Event::Lost {
            grant: *grant,
            saw: *saw,
        },
        _ => unreachable!(),
    }
}

/// The event that a line of a block, of functions that have run, or of a hart's end says.
fn hart_event(line: &EventLine) -> Event
    requires { IsOfHart line.now }
    ensures { unsaid line.now ≡ Some result }
{
    match line {
        EventLine::Tls {
            hart,
            owner,
            address,
        } => Event::Tls {
            hart: *hart,
            owner: *owner,
            address: *address,
        },
        EventLine::Init { hart, object } => Event::Init {
            hart: *hart,
            object: *object,
        },
        EventLine::Fini { hart, object } => Event::Fini {
            hart: *hart,
            object: *object,
        },
        EventLine::Ended { hart, end } => Event::Ended {
            hart: *hart,
            end: *end,
        },
        _ => unreachable!(),
    }
}

/// The event of a look-up.
///
/// # Errors
///
/// Want of memory.
fn symbol_event(
    alloc: Global,
    hart: HartId,
    ask: &SymAsk,
    answer: &SymAnswer,
) -> Result<Event, AllocError>
    ensures { IfOk result (λ event. event ≡ Sym hart ask.now answer.now) }
{
    let ask = copied_ask(alloc, ask)?;
    let answer = copied_answer(alloc, answer)?;
    Ok(Event::Sym { hart, ask, answer })
}

/// What came of a closing, once more.
///
/// # Errors
///
/// Want of memory.
fn copied_closing(alloc: Global, answer: &CloseAnswer) -> Result<CloseAnswer, AllocError>
    ensures { IfOk result (λ copy. copy ≡ answer.now) }
{
    match answer {
        CloseAnswer::Done(set) => {
            let set = Serials::from_slice(alloc, set.as_slice())?;
            Ok(CloseAnswer::Done(set))
        }
        CloseAnswer::Refused(fault) => Ok(CloseAnswer::Refused(fault.copy(alloc)?)),
    }
}

/// What a look-up asks for, once more.
///
/// # Errors
///
/// Want of memory.
fn copied_ask(alloc: Global, ask: &SymAsk) -> Result<SymAsk, AllocError>
    ensures { IfOk result (λ copy. copy ≡ ask.now) }
{
    let name = ask.name.copy(alloc)?;
    let version = ask.version.copy(alloc)?;
    Ok(SymAsk {
        ns: ask.ns,
        handle: ask.handle,
        name,
        version,
    })
}

/// What came of a look-up, once more.
///
/// # Errors
///
/// Want of memory.
fn copied_answer(alloc: Global, answer: &SymAnswer) -> Result<SymAnswer, AllocError>
    ensures { IfOk result (λ copy. copy ≡ answer.now) }
{
    match answer {
        SymAnswer::Found(serial, index, value) => Ok(SymAnswer::Found(*serial, *index, *value)),
        SymAnswer::Refused(fault) => Ok(SymAnswer::Refused(fault.copy(alloc)?)),
    }
}
