//! The lines of a trace.

ghost use Rattle.std.specs.Prelude.{◌≡◌, ◌==◌, ◌++◌, ◌<◌, IfNone, IfOk, IfSome, length, position};
ghost use Rattle.trace_check.specs.Lines.{AreLines, HasNoFeed, IsLine, is_end};
ghost use Rattle.trace_check.specs.Split.{lines_of};

use std::alloc::{AllocError, Global};

/// The lines of a text: those of events, the last one, and what stands behind it.
#[derive(Drop)]
pub(crate) struct Lines<'a> {
    /// The lines before the first that begins with `end `, each with its line feed.
    pub(crate) events: Vec<&'a [u8]>,
    /// That line.
    pub(crate) last: Option<&'a [u8]>,
    /// What stands behind it; without one, behind the last line feed.
    pub(crate) rest: &'a [u8],
}

/// The lines of a text.
///
/// # Errors
///
/// Want of memory.
pub(crate) fn split_lines(alloc: Global, text: &[u8]) -> Result<Lines<'_>, AllocError>
    ensures { IfOk result (λ lines. AreLines text.now (lines_of lines)) }
{
    let mut events = Vec::new(alloc);
    let mut rest = text;
    while let Some((line, behind)) = cut_line(rest) {
        if is_end(line) {
            return Ok(Lines {
                events,
                last: Some(line),
                rest: behind,
            });
        }
        events.push(line)?;
        rest = behind;
    }
    Ok(Lines {
        events,
        last: None,
        rest,
    })
}

/// The first line of a text, with its line feed, and what stands behind it.
fn cut_line(text: &[u8]) -> Option<(&[u8], &[u8])>
    ensures line { IfSome result (λ cut. IsLine cut.0.now) }
    ensures whole { IfSome result (λ cut. text.now ≡ cut.0.now ++ cut.1.now) }
    ensures shorter { IfSome result (λ cut. length cut.1.now < length text.now) }
    ensures none { IfNone result (HasNoFeed text.now) }
{
    let feed = first_feed(text)?;
    Some(text.split_at(feed + 1))
}

/// The place of the first line feed.
fn first_feed(text: &[u8]) -> Option<usize>
    ensures { result ≡ position (λ byte. byte == 10) text.now }
{
    text.iter().position(|byte| *byte == b'\n')
}

/// Whether a line is the last of its trace.
fn is_end(line: &[u8]) -> bool
    ensures { result ≡ is_end line.now }
{
    line.starts_with(b"end ")
}
