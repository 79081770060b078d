//! Lines of events: `event` has the kind of an event and then what it holds, in the order of its line; it
//! is written and read back. `line` has a text, which is read.

ghost use Rattle.trace_text.specs.Lines.{IsSayable};

mod answers;
mod events;
mod openings;
mod parts;

use events::event_of;
use history_event::Event;
use std::alloc::Global;
use test_file::{Fault, Words};
use trace_read::{TraceFault, read_event};
use trace_text::event_text;

/// The line of an event, without its line feed. This alone owns an event: it is dear to prove that one
/// is dropped.
pub fn written(alloc: Global, words: &str) -> Result<String, Fault> {
    let event = event_of(alloc, &mut Words::new(words))?;
    said(alloc, &event)
}

fn said(alloc: Global, event: &Event) -> Result<String, Fault>
    requires { IsSayable event.now }
{
    let line = event_text(alloc, event)?;
    if !is_event(alloc, line.as_slice())? {
        return Ok(String::from_str(alloc, "not read back")?);
    }
    let text = String::from_utf8_lossy(alloc, line.as_slice())?;
    Ok(String::from_str(alloc, text.as_str().trim_end())?)
}

/// Whether a text with a line feed behind it is the line of an event.
pub fn kind_of(alloc: Global, text: &str) -> Result<String, Fault> {
    let line = format!(in alloc; "{text}\n")?;
    let kind = if is_event(alloc, line.as_bytes())? {
        "an event"
    } else {
        "no event"
    };
    Ok(String::from_str(alloc, kind)?)
}

fn is_event(alloc: Global, line: &[u8]) -> Result<bool, Fault> {
    match read_event(alloc, line) {
        Ok(_) => Ok(true),
        Err(TraceFault::NotALine) => Ok(false),
        Err(TraceFault::Memory) => Err(Fault::Memory),
    }
}
