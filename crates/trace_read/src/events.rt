//! Events.

ghost use Rattle.std.specs.Prelude.{◌≡◌, None};
ghost use Rattle.trace_read.specs.Gives.{Gives};
ghost use Rattle.trace_read.specs.Events.{event_word, open_event, close_event, unmapped_event, sym_event, counted, wrote_event, some_fault, told_event};
ghost use Rattle.trace_read.specs.Events.{event_behind, event_of};

use crate::answers::{asked, close_answer, open_answer, sym_answer};
use crate::fault::TraceFault;
use crate::faults::fault;
use crate::lists::serials;
use crate::names::{bytes, name, some_name};
use crate::numbers::{decimal_field, decimal32_field, hexadecimal_field};
use crate::pieces::{behind, cut, named};
use crate::steps::{step_behind, step_word};
use history_event::{EventLine, OpenAsk, SymAsk};
use ld_base::{Bytes, DlFault, HartId, NsId};
use std::alloc::Global;

/// The first word of an event that holds a list or a name.
#[derive(Clone, Copy)]
enum EventWord {
    Open,
    Close,
    Unmapped,
    Sym,
    Wrote,
    Told,
}

const EVENT_WORDS: [(&[u8], EventWord); 6] = [
    (b"open", EventWord::Open),
    (b"close", EventWord::Close),
    (b"unmapped", EventWord::Unmapped),
    (b"sym", EventWord::Sym),
    (b"wrote", EventWord::Wrote),
    (b"told", EventWord::Told),
];

#[tactic(auto, unfolding(crate::specs::Events::event_word))]
fn event_word(text: &[u8]) -> Option<EventWord>
    ensures { result ≡ event_word text.now }
{
    named(&EVENT_WORDS, text)
}

fn open(alloc: Global, text: &[u8]) -> Result<EventLine, TraceFault>
    ensures { Gives (open_event text.now) result }
{
    let (hart, rest) = decimal32_field(text, b"h=").ok_or(TraceFault::NotALine)?;
    let (ns, rest) = cut(rest, b' ').ok_or(TraceFault::NotALine)?;
    let ns = behind(ns, b"ns=").ok_or(TraceFault::NotALine)?;
    let ns = asked(ns).ok_or(TraceFault::NotALine)?;
    let (name, rest) = cut(rest, b' ').ok_or(TraceFault::NotALine)?;
    let name = behind(name, b"name=").ok_or(TraceFault::NotALine)?;
    let name = some_name(alloc, name)?;
    let (flags, rest) = hexadecimal_field(rest, b"flags=").ok_or(TraceFault::NotALine)?;
    let answer = open_answer(alloc, rest)?;
    Ok(EventLine::Open {
        hart: HartId::new(hart),
        ask: OpenAsk { ns, name, flags },
        answer,
    })
}

fn close(alloc: Global, text: &[u8]) -> Result<EventLine, TraceFault>
    ensures { Gives (close_event text.now) result }
{
    let (hart, rest) = decimal32_field(text, b"h=").ok_or(TraceFault::NotALine)?;
    let (handle, rest) = hexadecimal_field(rest, b"handle=").ok_or(TraceFault::NotALine)?;
    let answer = close_answer(alloc, rest)?;
    Ok(EventLine::Close {
        hart: HartId::new(hart),
        handle,
        answer,
    })
}

fn unmapped(alloc: Global, text: &[u8]) -> Result<EventLine, TraceFault>
    ensures { Gives (unmapped_event text.now) result }
{
    let (hart, rest) = decimal32_field(text, b"h=").ok_or(TraceFault::NotALine)?;
    let set = behind(rest, b"set=").ok_or(TraceFault::NotALine)?;
    let set = serials(alloc, set)?;
    Ok(EventLine::Unmapped {
        hart: HartId::new(hart),
        set,
    })
}

fn sym(alloc: Global, text: &[u8]) -> Result<EventLine, TraceFault>
    ensures { Gives (sym_event text.now) result }
{
    let (hart, rest) = decimal32_field(text, b"h=").ok_or(TraceFault::NotALine)?;
    let (ns, rest) = decimal32_field(rest, b"ns=").ok_or(TraceFault::NotALine)?;
    let (handle, rest) = hexadecimal_field(rest, b"handle=").ok_or(TraceFault::NotALine)?;
    let (symbol, rest) = cut(rest, b' ').ok_or(TraceFault::NotALine)?;
    let symbol = behind(symbol, b"name=").ok_or(TraceFault::NotALine)?;
    let name = name(alloc, symbol)?;
    let (version, rest) = cut(rest, b' ').ok_or(TraceFault::NotALine)?;
    let version = behind(version, b"ver=").ok_or(TraceFault::NotALine)?;
    let version = some_name(alloc, version)?;
    let answer = sym_answer(alloc, rest)?;
    let ask = SymAsk {
        ns: NsId::new(ns),
        handle,
        name,
        version,
    };
    Ok(EventLine::Sym {
        hart: HartId::new(hart),
        ask,
        answer,
    })
}

#[tactic(auto, unfolding(crate::specs::Events::counted))]
fn counted(alloc: Global, text: &[u8]) -> Result<Bytes, TraceFault>
    ensures { Gives (counted text.now) result }
{
    let (count, rest) = decimal_field(text, b"n=").ok_or(TraceFault::NotALine)?;
    let bytes = bytes(alloc, rest)?;
    if bytes.len() as u64 == count {
        Ok(bytes)
    } else {
        Err(TraceFault::NotALine)
    }
}

fn wrote(alloc: Global, text: &[u8]) -> Result<EventLine, TraceFault>
    ensures { Gives (wrote_event text.now) result }
{
    let (hart, rest) = decimal32_field(text, b"h=").ok_or(TraceFault::NotALine)?;
    let bytes = counted(alloc, rest)?;
    Ok(EventLine::Wrote {
        hart: HartId::new(hart),
        bytes,
    })
}

#[tactic(auto, unfolding(crate::specs::Events::some_fault))]
fn some_fault(alloc: Global, text: &[u8]) -> Result<Option<DlFault>, TraceFault>
    ensures { Gives (some_fault text.now) result }
{
    if text == b"-".as_slice() {
        Ok(None)
    } else {
        Ok(Some(fault(alloc, text)?))
    }
}

fn told(alloc: Global, text: &[u8]) -> Result<EventLine, TraceFault>
    ensures { Gives (told_event text.now) result }
{
    let (hart, rest) = decimal32_field(text, b"h=").ok_or(TraceFault::NotALine)?;
    let fault = some_fault(alloc, rest)?;
    Ok(EventLine::Told {
        hart: HartId::new(hart),
        fault,
    })
}

fn event_behind(alloc: Global, word: EventWord, text: &[u8]) -> Result<EventLine, TraceFault>
    ensures { Gives (event_behind word text.now) result }
{
    match word {
        EventWord::Open => open(alloc, text),
        EventWord::Close => close(alloc, text),
        EventWord::Unmapped => unmapped(alloc, text),
        EventWord::Sym => sym(alloc, text),
        EventWord::Wrote => wrote(alloc, text),
        EventWord::Told => told(alloc, text),
    }
}

/// An event, without the line feed.
///
/// # Errors
///
/// It is none, or want of memory.
#[tactic(auto, unfolding(crate::specs::Events::event_of))]
pub(crate) fn event(alloc: Global, text: &[u8]) -> Result<EventLine, TraceFault>
    ensures { Gives (event_of text.now) result }
{
    let (word, rest) = cut(text, b' ').ok_or(TraceFault::NotALine)?;
    match event_word(word) {
        Some(word) => event_behind(alloc, word, rest),
        None => {
            let word = step_word(word).ok_or(TraceFault::NotALine)?;
            step_behind(word, rest).ok_or(TraceFault::NotALine)
        }
    }
}
