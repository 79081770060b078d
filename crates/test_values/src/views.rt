//! Journals in their forms: `view` has the word of a form and then lines of a journal with ` | ` between. So
//! have the lines of its answer.

use std::alloc::{AllocError, Global};
use test_file::Fault;
use trace_view::{Form, ViewFault, members_of, read_journal, view};

/// The journal's lines, each with a line feed.
fn journal_of(alloc: Global, lines: &str) -> Result<String, AllocError> {
    let mut journal = String::new(alloc);
    for line in lines.split(" | ") {
        journal.push_str(line)?;
        journal.push('\n')?;
    }
    Ok(journal)
}

/// The lines of a text, with ` | ` between.
fn joined(alloc: Global, text: &str) -> Result<String, AllocError> {
    let mut lines = String::new(alloc);
    for line in text.lines() {
        if !lines.is_empty() {
            lines.push_str(" | ")?;
        }
        lines.push_str(line)?;
    }
    Ok(lines)
}

/// A journal in a form, or the line that is refused.
pub fn shown(alloc: Global, text: &str) -> Result<String, Fault> {
    let (word, lines) = text.split_once(' ').ok_or(Fault::Unclear)?;
    let form = Form::named(word).ok_or(Fault::Unclear)?;
    let text = journal_of(alloc, lines)?;
    let journal = match read_journal(alloc, text.as_bytes()) {
        Ok(journal) => journal,
        Err(ViewFault::NoEvent(line)) => return Ok(format!(in alloc; "line {line} is no event")?),
        Err(ViewFault::Memory) => return Err(Fault::Memory),
    };
    let members = members_of(alloc, journal.steps.as_slice())?;
    let shown = view(alloc, form, members.as_slice(), &journal)?;
    let shown = String::from_utf8_lossy(alloc, shown.as_slice())?;
    Ok(joined(alloc, shown.as_str())?)
}
