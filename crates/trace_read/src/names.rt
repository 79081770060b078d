//! Names and bytes.

ghost use Rattle.std.specs.Prelude.{◌≡◌, ◌≤◌, None, IfSome, length, option_map};
ghost use Rattle.ld_base.specs.Text.{is_plain};
ghost use Rattle.trace_read.specs.Gives.{Gives};
ghost use Rattle.trace_read.specs.Names.{byte_of, bytes_of, escaped, first_byte, unescape, name_of, some_name};
ghost use Rattle.trace_read.specs.Names.Stage.{plain};

use crate::fault::TraceFault;
use crate::numbers::digit;
use ld_base::{Bytes, Name};
use std::alloc::Global;

fn is_plain(byte: u8) -> bool
    ensures { result ≡ is_plain byte }
{
    (0x21..=0x7e).contains(&byte) && !matches!(byte, b'%' | b',' | b':' | b'=' | b'@')
}

/// The byte that two digits are.
fn byte_of(high: u8, low: u8) -> Option<u8>
    ensures { result ≡ byte_of high low }
{
    let high = digit(16, high)?;
    Some(16 * high + digit(16, low)?)
}

/// Bytes, each of which is two digits.
///
/// # Errors
///
/// They aren't, or want of memory.
#[tactic(auto, using(crate::proofs::Looped::byte_rules))]
pub(crate) fn bytes(alloc: Global, text: &[u8]) -> Result<Bytes, TraceFault>
    ensures { Gives (bytes_of None text.now) result }
{
    let mut bytes = Bytes::new(alloc);
    let mut rest = text;
    while let [high, low, others @ ..] = rest {
        bytes.push(byte_of(*high, *low).ok_or(TraceFault::NotALine)?)?;
        rest = others;
    }
    if rest.is_empty() {
        Ok(bytes)
    } else {
        Err(TraceFault::NotALine)
    }
}

#[tactic(auto, unfolding(crate::specs::Names::escaped))]
fn escaped(text: &[u8]) -> Option<(u8, &[u8])>
    ensures read { option_map (λ p. (p.0, p.1.now)) result ≡ escaped text.now }
    ensures bound { IfSome result (λ p. length p.1.now ≤ length text.now) }
{
    match text {
        [high, low, rest @ ..] => {
            let byte = byte_of(*high, *low)?;
            if is_plain(byte) {
                None
            } else {
                Some((byte, rest))
            }
        }
        _ => None,
    }
}

#[tactic(auto, unfolding(crate::specs::Names::first_byte))]
fn first_byte(first: u8, others: &[u8]) -> Option<(u8, &[u8])>
    ensures read { option_map (λ p. (p.0, p.1.now)) result ≡ first_byte first others.now }
    ensures bound { IfSome result (λ p. length p.1.now ≤ length others.now) }
{
    if first == b'%' {
        escaped(others)
    } else if is_plain(first) {
        Some((first, others))
    } else {
        None
    }
}

#[tactic(auto, using(crate::proofs::Looped::name_rules))]
fn unescaped(alloc: Global, text: &[u8]) -> Result<Name, TraceFault>
    ensures { Gives (unescape plain text.now) result }
{
    let mut bytes = Vec::new(alloc);
    let mut rest = text;
    while let [first, others @ ..] = rest {
        let (byte, behind) = first_byte(*first, others).ok_or(TraceFault::NotALine)?;
        bytes.push(byte)?;
        rest = behind;
    }
    Ok(Name::from_vec(bytes)?)
}

/// A name.
///
/// # Errors
///
/// It is none, or want of memory.
#[tactic(auto, unfolding(crate::specs::Names::name_of))]
pub(crate) fn name(alloc: Global, text: &[u8]) -> Result<Name, TraceFault>
    ensures { Gives (name_of text.now) result }
{
    if text == b"%".as_slice() {
        Ok(Name::new(alloc, b"".as_slice())?)
    } else if text == b"%2d".as_slice() {
        Ok(Name::new(alloc, b"-".as_slice())?)
    } else if text.is_empty() || text == b"-".as_slice() {
        Err(TraceFault::NotALine)
    } else {
        unescaped(alloc, text)
    }
}

/// A name, or `-` for none.
///
/// # Errors
///
/// It is neither, or want of memory.
#[tactic(auto, unfolding(crate::specs::Names::some_name))]
pub(crate) fn some_name(alloc: Global, text: &[u8]) -> Result<Option<Name>, TraceFault>
    ensures { Gives (some_name text.now) result }
{
    if text == b"-".as_slice() {
        Ok(None)
    } else {
        Ok(Some(name(alloc, text)?))
    }
}
