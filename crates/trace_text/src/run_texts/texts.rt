//! The texts of a run.

ghost use Rattle.std.specs.Prelude.{◌≡◌, ◌++◌, All, IfOk, OnOk, flat_map};
ghost use Rattle.std.specs.String.{string_bytes};
ghost use Rattle.trace_text.specs.Lines.{IsSayable};
ghost use Rattle.trace_text.specs.RunTexts.Printed.{guest_output, journal_lines, with_line_feed, written_by};

use crate::write_event;
use history_event::Event;
use ld_base::Bytes;
use std::alloc::{AllocError, Global};

/// What is printed of a run whose journal is shown: the line of each event, and then a last line.
///
/// # Errors
///
/// Want of memory.
pub fn journal_text(alloc: Global, events: &[Event], last_line: &str) -> Result<Bytes, AllocError>
    requires { All IsSayable events.now }
    ensures { IfOk result (λ text. text ≡ journal_lines events.now ++ last_line.now) }
{
    let mut text = String::new(alloc);
    write_events(&mut text, events)?;
    text.push_str(last_line)?;
    Ok(Bytes::from(text.into_bytes()))
}

/// What is printed of a run otherwise: the bytes that the guest wrote, a line feed where the last of
/// them isn't one, and then a last line.
///
/// # Errors
///
/// Want of memory.
pub fn guest_text(alloc: Global, events: &[Event], last_line: &str) -> Result<Bytes, AllocError>
    ensures { IfOk result (λ text. text ≡ guest_output events.now ++ last_line.now) }
{
    let mut bytes = written(alloc, events)?;
    end_last_line(&mut bytes)?;
    bytes.extend_from_slice(last_line.as_bytes())?;
    Ok(Bytes::from(bytes))
}

/// Writes the line of each event.
fn write_events(text: &mut String, events: &[Event]) -> Result<(), AllocError>
    requires { All IsSayable events.now }
    ensures { OnOk result (string_bytes text.new ≡ string_bytes text.old ++ journal_lines events.now) }
{
    for event in events {
        write_event(text, event)?;
    }
    Ok(())
}

/// The bytes that events wrote.
fn written(alloc: Global, events: &[Event]) -> Result<Vec<u8>, AllocError>
    ensures { IfOk result (λ bytes. bytes.items ≡ flat_map written_by events.now) }
{
    let mut bytes = Vec::new(alloc);
    for event in events {
        push_written(&mut bytes, event)?;
    }
    Ok(bytes)
}

#[tactic(auto, unfolding(crate::specs::RunTexts::Printed::written_by))]
fn push_written(bytes: &mut Vec<u8>, event: &Event) -> Result<(), AllocError>
    ensures { OnOk result (bytes.new.items ≡ bytes.old.items ++ written_by event.now) }
{
    match event {
        Event::Wrote {
            hart: _,
            bytes: written,
        } => bytes.extend_from_slice(written.as_slice()),
        _ => Ok(()),
    }
}

/// Puts a line feed at the end of bytes, where there are some and the last isn't one.
fn end_last_line(bytes: &mut Vec<u8>) -> Result<(), AllocError>
    ensures { OnOk result (bytes.new.items ≡ with_line_feed bytes.old.items) }
{
    match bytes.as_slice().last() {
        None | Some(b'\n') => Ok(()),
        Some(_) => bytes.extend_from_slice(b"\n"),
    }
}
