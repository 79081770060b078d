//! Events of words.

ghost use Rattle.std.specs.Prelude.{IfOk};
ghost use Rattle.trace_text.specs.Lines.{IsSayable};

use crate::event_lines::answers::{close_answer, open_answer, sym_answer};
use crate::event_lines::parts::{end, fault, number, open_ask, serials, sym_ask};
use history_event::Event;
use ld_base::{Bytes, Choice, GrantNo, HartId, Serial};
use std::alloc::Global;
use test_file::{Fault, Words};

/// The event that words say.
pub fn event_of(alloc: Global, words: &mut Words) -> Result<Event, Fault>
    ensures { IfOk result IsSayable }
{
    match words.text()? {
        "bound" => {
            let grant = GrantNo::new(words.number()?);
            Ok(Event::Bound { grant })
        }
        "lost" => {
            let grant = GrantNo::new(words.number()?);
            let saw = words.number()?;
            Ok(Event::Lost { grant, saw })
        }
        "grant" => grant(words),
        kind => {
            let hart = HartId::new(words.number32()?);
            of_hart(alloc, kind, hart, words)
        }
    }
}

/// A grant of a definition, or of a weak symbol's 0.
fn grant(words: &mut Words) -> Result<Event, Fault>
    ensures { IfOk result IsSayable }
{
    let grant = GrantNo::new(words.number()?);
    let hart = HartId::new(words.number32()?);
    let owner = Serial::new(words.number()?);
    let slot = words.number32()?;
    let object = words.text()?;
    if object == "weak" {
        let choice = Choice::WeakZero;
        return Ok(Event::Grant {
            grant,
            hart,
            owner,
            slot,
            choice,
            value: 0,
        });
    }
    let object = Serial::new(number(object)?);
    let choice = Choice::Def(object, words.number32()?);
    let value = words.number()?;
    Ok(Event::Grant {
        grant,
        hart,
        owner,
        slot,
        choice,
        value,
    })
}

/// What a hart does.
fn of_hart(alloc: Global, kind: &str, hart: HartId, words: &mut Words) -> Result<Event, Fault>
    ensures { IfOk result IsSayable }
{
    match kind {
        "open" | "close" | "sym" => asked(alloc, kind, hart, words),
        "unresolved" => unresolved(hart, words),
        "wrote" => {
            let bytes = Bytes::from_slice(alloc, words.text()?.as_bytes())?;
            Ok(Event::Wrote { hart, bytes })
        }
        "told" => {
            let fault = match words.text()? {
                "nothing" => None,
                kind => Some(fault(alloc, kind, words)?),
            };
            Ok(Event::Told { hart, fault })
        }
        "ended" => {
            let end = end(words)?;
            Ok(Event::Ended { hart, end })
        }
        "unmapped" => {
            let set = serials(alloc, words.text()?)?;
            Ok(Event::Unmapped { hart, set })
        }
        kind => of_object(kind, hart, words),
    }
}

/// A call of the linker, with its answer.
fn asked(alloc: Global, kind: &str, hart: HartId, words: &mut Words) -> Result<Event, Fault>
    ensures { IfOk result IsSayable }
{
    match kind {
        "open" => {
            let ask = open_ask(alloc, words)?;
            let answer = open_answer(alloc, words)?;
            Ok(Event::Open { hart, ask, answer })
        }
        "close" => {
            let handle = words.number()?;
            let answer = close_answer(alloc, words)?;
            Ok(Event::Close {
                hart,
                handle,
                answer,
            })
        }
        _ => {
            let ask = sym_ask(alloc, words)?;
            let answer = sym_answer(alloc, words)?;
            Ok(Event::Sym { hart, ask, answer })
        }
    }
}

/// A slot that gets nothing.
fn unresolved(hart: HartId, words: &mut Words) -> Result<Event, Fault>
    ensures { IfOk result IsSayable }
{
    let owner = Serial::new(words.number()?);
    let slot = words.number32()?;
    let object = words.text()?;
    if object == "missing" {
        let choice = Choice::Missing;
        return Ok(Event::Unresolved {
            hart,
            owner,
            slot,
            choice,
        });
    }
    let object = Serial::new(number(object)?);
    let choice = Choice::Def(object, words.number32()?);
    Ok(Event::Unresolved {
        hart,
        owner,
        slot,
        choice,
    })
}

/// What becomes of an object.
fn of_object(kind: &str, hart: HartId, words: &mut Words) -> Result<Event, Fault>
    ensures { IfOk result IsSayable }
{
    let object = Serial::new(words.number()?);
    match kind {
        "init" => Ok(Event::Init { hart, object }),
        "fini" => Ok(Event::Fini { hart, object }),
        "tls" => {
            let address = words.number()?;
            Ok(Event::Tls {
                hart,
                owner: object,
                address,
            })
        }
        _ => Err(Fault::Unclear),
    }
}
