//! What came of calls of the linker.

ghost use Rattle.std.specs.Prelude.{◌≡◌};
ghost use Rattle.trace_read.specs.Gives.{Gives};
ghost use Rattle.trace_read.specs.Answers.{asked, opened, open_answer, close_answer, found, sym_answer};

use crate::fault::TraceFault;
use crate::faults::fault;
use crate::lists::{new_lines, serials};
use crate::numbers::{decimal, decimal_field, decimal32_field, definition, hexadecimal};
use crate::pieces::{behind, cut};
use history_event::{CloseAnswer, OpenLine, SymAnswer};
use ld_base::{NsId, Serial};
use std::alloc::Global;

/// A namespace that is asked for, none for a new one.
#[tactic(auto, unfolding(crate::specs::Answers::asked))]
pub(crate) fn asked(text: &[u8]) -> Option<Option<u64>>
    ensures { result ≡ asked text.now }
{
    if text == b"new".as_slice() {
        Some(None)
    } else {
        Some(Some(decimal(text)?))
    }
}

fn opened(alloc: Global, text: &[u8]) -> Result<OpenLine, TraceFault>
    ensures { Gives (opened text.now) result }
{
    let (ns, rest) = decimal32_field(text, b"in=").ok_or(TraceFault::NotALine)?;
    let (root, rest) = decimal_field(rest, b"root=").ok_or(TraceFault::NotALine)?;
    let list = behind(rest, b"new=").ok_or(TraceFault::NotALine)?;
    let added = new_lines(alloc, list)?;
    let (ns, root) = (NsId::new(ns), Serial::new(root));
    Ok(OpenLine::Done { ns, root, added })
}

/// The answer of an opening.
///
/// # Errors
///
/// It is none, or want of memory.
#[tactic(auto, unfolding(crate::specs::Answers::open_answer))]
pub(crate) fn open_answer(alloc: Global, text: &[u8]) -> Result<OpenLine, TraceFault>
    ensures { Gives (open_answer text.now) result }
{
    if text == b"absent".as_slice() {
        return Ok(OpenLine::Absent);
    }
    match behind(text, b"no ") {
        Some(rest) => Ok(OpenLine::Refused(fault(alloc, rest)?)),
        None => opened(alloc, behind(text, b"ok ").ok_or(TraceFault::NotALine)?),
    }
}

/// The answer of a closing.
///
/// # Errors
///
/// It is none, or want of memory.
#[tactic(auto, unfolding(crate::specs::Answers::close_answer))]
pub(crate) fn close_answer(alloc: Global, text: &[u8]) -> Result<CloseAnswer, TraceFault>
    ensures { Gives (close_answer text.now) result }
{
    match behind(text, b"no ") {
        Some(rest) => Ok(CloseAnswer::Refused(fault(alloc, rest)?)),
        None => {
            let rest = behind(text, b"ok ").ok_or(TraceFault::NotALine)?;
            let list = behind(rest, b"dying=").ok_or(TraceFault::NotALine)?;
            Ok(CloseAnswer::Done(serials(alloc, list)?))
        }
    }
}

fn found(text: &[u8]) -> Option<SymAnswer>
    ensures { result ≡ found text.now }
{
    let (object, address) = cut(text, b' ')?;
    let (object, index) = definition(object)?;
    let address = hexadecimal(address)?;
    Some(SymAnswer::Found(Serial::new(object), index, address))
}

/// The answer of a look-up.
///
/// # Errors
///
/// It is none, or want of memory.
#[tactic(auto, unfolding(crate::specs::Answers::sym_answer))]
pub(crate) fn sym_answer(alloc: Global, text: &[u8]) -> Result<SymAnswer, TraceFault>
    ensures { Gives (sym_answer text.now) result }
{
    match behind(text, b"no ") {
        Some(rest) => Ok(SymAnswer::Refused(fault(alloc, rest)?)),
        None => {
            let rest = behind(text, b"ok ").ok_or(TraceFault::NotALine)?;
            found(rest).ok_or(TraceFault::NotALine)
        }
    }
}
