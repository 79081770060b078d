//! Lists.

ghost use Rattle.std.specs.Prelude.{◌≡◌, IfOk, map};
ghost use Rattle.trace_read.specs.Gives.{Gives};
ghost use Rattle.trace_read.specs.Lists.{each, parts_of, list_of, hexadecimal, place, new_line};
ghost use Rattle.trace_read.specs.Numbers.{numeral};
ghost use Rattle.trace_read.specs.Pieces.{with_option};

use crate::fault::TraceFault;
use crate::names::name;
use crate::numbers::{decimal, hexadecimal};
use crate::pieces::cut;
use history_event::{NewLine, NewLines};
use ld_base::{Serial, Serials, TlsPlace};
use std::alloc::{AllocError, Global};

/// What stands between commas.
fn parts_of(alloc: Global, text: &[u8]) -> Result<Vec<&[u8]>, AllocError>
    ensures { IfOk result (λ parts. map (λ part. part.now) parts.items ≡ parts_of text.now) }
{
    text.split(|byte| *byte == b',').collect(alloc)
}

#[tactic(auto, using(crate::proofs::Looped::each_rules))]
fn each_serial(alloc: Global, texts: &[&[u8]]) -> Result<Serials, TraceFault>
    ensures { Gives (each (numeral 10) (map (λ text. text.now) texts.now)) result }
{
    let mut serials = Serials::new(alloc);
    let mut rest = texts;
    while let [text, others @ ..] = rest {
        let serial = Serial::new(decimal(text).ok_or(TraceFault::NotALine)?);
        serials.push(serial)?;
        rest = others;
    }
    Ok(serials)
}

/// Serials with commas between, or `-`.
///
/// # Errors
///
/// They are none, or want of memory.
#[tactic(auto, unfolding(crate::specs::Lists::list_of))]
pub(crate) fn serials(alloc: Global, text: &[u8]) -> Result<Serials, TraceFault>
    ensures { Gives (list_of (numeral 10) text.now) result }
{
    if text == b"-".as_slice() {
        return Ok(Serials::new(alloc));
    }
    let parts = parts_of(alloc, text)?;
    each_serial(alloc, parts.as_slice())
}

/// A module's number, and its offset where it has one.
fn place(text: &[u8]) -> Option<TlsPlace>
    ensures { result ≡ place text.now }
{
    match cut(text, b'+') {
        None => {
            let number = decimal(text)?;
            Some(TlsPlace {
                number,
                offset: None,
            })
        }
        Some((number, offset)) => {
            let number = decimal(number)?;
            let offset = Some(hexadecimal(offset)?);
            Some(TlsPlace { number, offset })
        }
    }
}

/// Where an object is mapped, and its module.
fn mapped(text: &[u8]) -> Option<(u64, Option<TlsPlace>)>
    ensures { result ≡ with_option 47 hexadecimal place text.now }
{
    match cut(text, b'/') {
        None => Some((hexadecimal(text)?, None)),
        Some((base, module)) => {
            let base = hexadecimal(base)?;
            Some((base, Some(place(module)?)))
        }
    }
}

/// A new object: `S:PATH@0xBASE`, and then `/M` for a module, or `/M+0xOFFSET`.
#[tactic(auto, unfolding(crate::specs::Lists::new_line))]
fn new_line(alloc: Global, text: &[u8]) -> Result<NewLine, TraceFault>
    ensures { Gives (new_line text.now) result }
{
    let (serial, rest) = cut(text, b':').ok_or(TraceFault::NotALine)?;
    let serial = Serial::new(decimal(serial).ok_or(TraceFault::NotALine)?);
    let (path, rest) = cut(rest, b'@').ok_or(TraceFault::NotALine)?;
    let path = name(alloc, path)?;
    let (base, module) = mapped(rest).ok_or(TraceFault::NotALine)?;
    Ok(NewLine {
        serial,
        path,
        base,
        module,
    })
}

#[tactic(auto, using(crate::proofs::Looped::each_rules))]
fn each_new_line(alloc: Global, texts: &[&[u8]]) -> Result<NewLines, TraceFault>
    ensures { Gives (each new_line (map (λ text. text.now) texts.now)) result }
{
    let mut lines = NewLines::new(alloc);
    let mut rest = texts;
    while let [text, others @ ..] = rest {
        lines.push(new_line(alloc, text)?)?;
        rest = others;
    }
    Ok(lines)
}

/// New objects with commas between, or `-`.
///
/// # Errors
///
/// They are none, or want of memory.
#[tactic(auto, unfolding(crate::specs::Lists::list_of))]
pub(crate) fn new_lines(alloc: Global, text: &[u8]) -> Result<NewLines, TraceFault>
    ensures { Gives (list_of new_line text.now) result }
{
    if text == b"-".as_slice() {
        return Ok(NewLines::new(alloc));
    }
    let parts = parts_of(alloc, text)?;
    each_new_line(alloc, parts.as_slice())
}
