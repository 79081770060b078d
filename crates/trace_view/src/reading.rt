//! Lines of a journal.

ghost use Rattle.std.specs.Prelude.{◌≡◌, ◌≤◌, ◌+◌, ◌==◌, Some, length, option_map, IfOk, IfErr, IfSome, OnOk};
ghost use Rattle.std.specs.List.{find, list_all};
ghost use Rattle.std.specs.Option.{option_copied};
ghost use Rattle.std.specs.String.{string_bytes};
ghost use Rattle.trace_view.specs.Journal.{EndsAt, IsEnd, IsGrantOf, IsJournal, IsNoEndAt, IsOneMore, IsRefused, IsSettledBy};
ghost use Rattle.trace_view.specs.Journal.{line_length, made_by, noted, settled_number};
ghost use Rattle.trace_view.specs.Names.{is_visible};

use crate::fault::ViewFault;
use crate::journal::{Journal, Made, Step, Steps};
use history_event::EventLine;
use ld_base::{GrantNo, Sequence};
use std::alloc::{AllocError, Global};
use trace_read::{TraceFault, read_event};

/// How many bytes the first line has, its line feed too where it has one.
fn line_length(bytes: &[u8]) -> usize
    ensures value { result ≡ line_length bytes.now }
    ensures bound { result ≤ length bytes.now }
{
    let mut count = 0;
    let mut rest = bytes;
    while let [byte, others @ ..] = rest {
        count += 1;
        if *byte == b'\n' {
            return count;
        }
        rest = others;
    }
    count
}

/// The words of a last line behind `end`; none where it is no such line.
fn last_words(line: &[u8]) -> Option<&str>
    ensures { IsEnd line.now (option_map (λ words. words.now) result) }
{
    let Some(rest) = line.strip_prefix(b"end ") else {
        return None;
    };
    let Some(words) = rest.strip_suffix(b"\n") else {
        return None;
    };
    if !are_visible(words) {
        return None;
    }
    match str::from_utf8(words) {
        Ok(text) => Some(text),
        Err(_) => None,
    }
}

/// What a last line says behind `end`; none where it is no such line.
///
/// # Errors
///
/// Want of memory.
fn last_of(alloc: Global, line: &[u8]) -> Result<Option<String>, AllocError>
    ensures { IfOk result (λ last. IsEnd line.now (option_map string_bytes last)) }
{
    match last_words(line) {
        Some(words) => Ok(Some(String::from_str(alloc, words)?)),
        None => Ok(None),
    }
}

/// Whether bytes are visible characters and spaces.
fn are_visible(bytes: &[u8]) -> bool
    ensures { result ≡ list_all is_visible bytes.now }
{
    bytes.iter().all(|byte| (0x20..=0x7e).contains(byte))
}

/// Puts the grant that an event makes behind others.
///
/// # Errors
///
/// Want of memory.
fn note(grants: &mut Sequence<Made>, event: &EventLine, row: usize) -> Result<(), AllocError>
    ensures { OnOk result (grants.new ≡ noted grants.old (made_by row event.now)) }
{
    match event {
        EventLine::Grant {
            grant,
            hart,
            owner,
            slot,
            choice,
            ..
        } => grants.push(Made {
            row,
            grant: *grant,
            hart: *hart,
            owner: *owner,
            slot: *slot,
            choice: *choice,
        }),
        _ => Ok(()),
    }
}

/// The grant of a number at the place that it has where grants are numbered as they are made.
fn in_place(grants: &[Made], number: GrantNo) -> Option<&Made>
    ensures { IfSome (option_copied result) (λ made. IsGrantOf grants.now number (Some made)) }
{
    let place = number.number().checked_sub(1)?;
    let made = grants.get(place as usize)?;
    if made.grant == number {
        Some(made)
    } else {
        None
    }
}

/// The first grant of a number.
fn searched(grants: &[Made], number: GrantNo) -> Option<&Made>
    ensures { option_copied result ≡ find (λ made. made.grant == number) grants.now }
{
    grants.iter().find(|made| made.grant == number)
}

/// A grant of a number.
fn grant_of(grants: &[Made], number: GrantNo) -> Option<&Made>
    ensures { IsGrantOf grants.now number (option_copied result) }
{
    match in_place(grants, number) {
        Some(made) => Some(made),
        None => searched(grants, number),
    }
}

/// The number of the grant that an event settles.
fn settled_number(event: &EventLine) -> Option<GrantNo>
    ensures { result ≡ settled_number event.now }
{
    match event {
        EventLine::Bound { grant } | EventLine::Lost { grant, .. } => Some(*grant),
        _ => None,
    }
}

/// The grant that an event settles.
fn settled_by(grants: &[Made], event: &EventLine) -> Option<Made>
    ensures { IsSettledBy grants.now event.now result }
{
    match settled_number(event) {
        Some(number) => grant_of(grants, number).copied(),
        None => None,
    }
}

/// Puts an event behind others, with the grant that it settles, and the grant that it makes.
///
/// # Errors
///
/// Want of memory.
fn add(steps: &mut Steps, grants: &mut Sequence<Made>, event: EventLine) -> Result<(), AllocError>
    ensures steps { OnOk result (IsOneMore steps.old grants.old event steps.new) }
    ensures grants { OnOk result (grants.new ≡ noted grants.old (made_by (length steps.old) event)) }
{
    let row = steps.len();
    let grant = settled_by(grants.as_slice(), &event);
    note(grants, &event, row)?;
    steps.push(Step { row, event, grant })
}

/// The journal that bytes are: a line an event, and maybe one of the run's end behind them.
///
/// # Errors
///
/// `NoEvent` where a line is no event's, and doesn't say the end as the last: the number of the first
/// such line. Or want of memory.
pub fn read_journal(alloc: Global, bytes: &[u8]) -> Result<Journal, ViewFault>
    ensures journal { IfOk result (IsJournal bytes.now) }
    ensures refused { IfErr result (IsRefused bytes.now) }
{
    let mut steps = Steps::new(alloc);
    let mut grants: Sequence<Made> = Sequence::new(alloc);
    let mut rest = bytes;
    while !rest.is_empty() {
        let (line, behind) = rest.split_at(line_length(rest));
        match read_event(alloc, line) {
            Ok(event) => add(&mut steps, &mut grants, event)?,
            Err(TraceFault::NotALine) => return ended(alloc, steps, line, behind),
            Err(TraceFault::Memory) => return Err(ViewFault::Memory),
        }
        rest = behind;
    }
    Ok(Journal { steps, last: None })
}

/// The journal that ends at a line that is no event's.
///
/// # Errors
///
/// `NoEvent` where the line doesn't say the end, or isn't the last. Or want of memory.
fn ended(alloc: Global, steps: Steps, line: &[u8], behind: &[u8]) -> Result<Journal, ViewFault>
    ensures last { IfOk result (EndsAt steps line.now behind.now) }
    ensures refused { IfErr result (IsNoEndAt (length steps + 1) line.now behind.now) }
{
    let row = steps.len();
    if !behind.is_empty() {
        return Err(ViewFault::NoEvent(row + 1));
    }
    match last_of(alloc, line)? {
        Some(words) => Ok(Journal {
            steps,
            last: Some(words),
        }),
        None => Err(ViewFault::NoEvent(row + 1)),
    }
}
