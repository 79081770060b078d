//! How many harts a trace is of.

ghost use Rattle.std.specs.Prelude.{IfOk, map};
ghost use Rattle.trace_check.specs.Harts.{NameHarts};
ghost use Rattle.trace_check.specs.Parts.{IsPart, IsPartOf};

use history_event::EventLine;
use std::alloc::{AllocError, Global};
use trace_read::{TraceFault, read_event};

/// What a line is to the start of a run.
#[derive(Clone, Copy)]
pub(crate) enum Part {
    /// The start is over: an object is initialised, or a hart has ended.
    Over,
    /// A name is looked up for a hart, other than the first.
    Hart,
    /// None of these, or the line of no event.
    Other,
}

/// How many harts other than the first the lines name before the start of the run is over.
///
/// # Errors
///
/// Want of memory; also for more harts than there are numbers of 32 bits.
pub(crate) fn named_harts(alloc: Global, lines: &[&[u8]]) -> Result<u32, AllocError>
    ensures { IfOk result (NameHarts (map (λ line. line.now) lines.now)) }
{
    let mut named: u32 = 0;
    for line in lines {
        match line_part(alloc, line)? {
            Part::Over => return Ok(named),
            Part::Hart => named = named.checked_add(1).ok_or(AllocError)?,
            Part::Other => {}
        }
    }
    Ok(named)
}

/// What a line is to the start.
///
/// # Errors
///
/// Want of memory.
fn line_part(alloc: Global, line: &[u8]) -> Result<Part, AllocError>
    ensures { IfOk result (IsPartOf line.now) }
{
    match read_event(alloc, line) {
        Ok(event) => Ok(event_part(&event)),
        Err(TraceFault::NotALine) => Ok(Part::Other),
        Err(TraceFault::Memory) => Err(AllocError),
    }
}

/// What an event is to the start.
fn event_part(event: &EventLine) -> Part
    ensures { IsPart event.now result }
{
    match event {
        EventLine::Init { .. } | EventLine::Ended { .. } => Part::Over,
        EventLine::Sym { hart, .. } if hart.number() != 0 => Part::Hart,
        _ => Part::Other,
    }
}
