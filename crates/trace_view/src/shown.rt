//! A journal's text in one of its forms.

ghost use Rattle.std.specs.Prelude.{◌≡◌, ◌≢◌, IfNone, IfOk, IfSome};
ghost use Rattle.trace_view.specs.declared.shown.Form.{Form};
ghost use Rattle.trace_view.specs.View.{said_text, view_of, word_of};

use crate::graph::graph_text;
use crate::journal::{Journal, Step};
use crate::json::json_text;
use crate::members::Member;
use crate::picture::picture_text;
use crate::words::words_text;
use history_event::EventLine;
use ld_base::Bytes;
use std::alloc::{AllocError, Global};

/// What a journal is written as.
#[derive(Clone, Copy)]
pub enum Form {
    /// Events in words, a line an event.
    Words,
    /// The bytes that the guest wrote.
    Said,
    /// An object an event, in lines of JSON.
    Json,
    /// Who needs whom and which slot was bound to whom, in DOT.
    Graph,
    /// A lane a hart and a row an event, in SVG.
    Picture,
}

impl Form {
    /// The form that a word names.
    pub fn named(word: &str) -> Option<Self>
        ensures form { IfSome result (λ form. word.now ≡ word_of form) }
        ensures none { IfNone result ((form : Form) → word.now ≢ word_of form) }
    {
        match word {
            "text" => Some(Form::Words),
            "said" => Some(Form::Said),
            "json" => Some(Form::Json),
            "dot" => Some(Form::Graph),
            "svg" => Some(Form::Picture),
            _ => None,
        }
    }
}

/// What the guest wrote.
fn said_text(alloc: Global, steps: &[Step]) -> Result<Vec<u8>, AllocError>
    ensures { IfOk result (λ bytes. bytes.items ≡ said_text steps.now) }
{
    let mut said = Vec::new(alloc);
    for step in steps {
        if let EventLine::Wrote { bytes, .. } = &step.event {
            said.extend_from_slice(bytes.as_slice())?;
        }
    }
    Ok(said)
}

/// The text of a journal in a form, with these objects: symbols and slots have names where their object's
/// file is known, and numbers else.
///
/// # Errors
///
/// Want of memory.
pub fn view(
    alloc: Global,
    form: Form,
    members: &[Member],
    journal: &Journal,
) -> Result<Bytes, AllocError>
    ensures { IfOk result (λ text. text ≡ view_of form members.now journal.now) }
{
    let steps = journal.steps.as_slice();
    let text = match form {
        Form::Words => words_text(alloc, members, journal)?.into_bytes(),
        Form::Said => said_text(alloc, steps)?,
        Form::Json => json_text(alloc, members, journal)?.into_bytes(),
        Form::Graph => graph_text(alloc, members, steps)?.into_bytes(),
        Form::Picture => picture_text(alloc, members, steps)?.into_bytes(),
    };
    Ok(Bytes::from(text))
}
