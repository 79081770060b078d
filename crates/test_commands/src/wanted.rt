//! What a command has to write, and its status.

use crate::command::Answer;
use crate::numbers::Numbers;
use std::alloc::{AllocError, Global};
use test_file::Fault;

/// What a command has to come to.
#[derive(Drop)]
pub struct Wanted {
    /// Its text.
    pub text: String,
    /// Its bytes, where they are no text.
    pub bytes: Option<Vec<u8>>,
    /// Its status, where the last line of the text doesn't have it.
    pub status: Option<u64>,
}

impl Wanted {
    pub fn new(alloc: Global) -> Self {
        Wanted {
            text: String::new(alloc),
            bytes: None,
            status: None,
        }
    }

    /// Puts one more line.
    pub fn push_line(&mut self, line: &str) -> Result<(), AllocError> {
        self.text.push_str(line)?;
        self.text.push_str("\n")
    }

    /// Whether a command has just these bytes, or just this text, and the status.
    pub fn is_all_of(&self, answer: &Answer) -> bool {
        let text = match &self.bytes {
            Some(bytes) => bytes.as_slice(),
            None => self.text.as_bytes(),
        };
        answer.text.as_slice() == text && self.fits(answer)
    }

    /// Whether the last line of a command's text is this text, and it has the status. Where that
    /// isn't 0 the line is the only one.
    pub fn is_last_of(&self, answer: &Answer) -> bool {
        let line = last_line(answer.text.as_slice());
        let is_alone = line.len().saturating_add(1) >= answer.text.len();
        line == last_line(self.text.as_bytes())
            && self.fits(answer)
            && (answer.status == 0 || is_alone)
    }

    fn fits(&self, answer: &Answer) -> bool {
        let wanted = match self.status {
            Some(status) => Some(status),
            None => status_in(last_line(self.text.as_bytes())),
        };
        wanted == Some(u64::from(answer.status))
    }

    /// The line that a row wants: its words in the place of the dots of the table's line, or
    /// alone where they begin as a last line does. A number's name stands for the number.
    pub fn of_row(&self, alloc: Global, words: &str, numbers: &Numbers) -> Result<Self, Fault> {
        let (before, behind) = match words.trim().strip_prefix("end ") {
            Some(_) => ("", ""),
            None => self.text.split_once("...").ok_or(Fault::Unclear)?,
        };
        let mut wanted = Wanted::new(alloc);
        wanted.text.push_str(before)?;
        wanted.push_words(words, numbers)?;
        wanted.text.push_str(behind.trim_end())?;
        Ok(wanted)
    }

    fn push_words(&mut self, words: &str, numbers: &Numbers) -> Result<(), AllocError> {
        for (index, word) in words.split_whitespace().enumerate() {
            if index > 0 {
                self.text.push_str(" ")?;
            }
            match numbers.named(word) {
                Some(value) => write!(self.text, "{value}")?,
                None => self.text.push_str(word)?,
            }
        }
        Ok(())
    }
}

/// The last line of a text, without its end.
fn last_line(text: &[u8]) -> &[u8] {
    let text = text.strip_suffix(b"\n").unwrap_or(text);
    match text.rsplit(|byte| *byte == b'\n').next() {
        Some(line) => line,
        None => text,
    }
}

/// The status in a last line, `end N ..`.
fn status_in(line: &[u8]) -> Option<u64> {
    let words = str::from_utf8(line).ok()?.strip_prefix("end ")?;
    words.split(' ').next()?.parse().ok()
}
