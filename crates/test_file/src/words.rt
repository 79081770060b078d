//! The arguments of a call.

use crate::{Fault, whole};
use std::str::SplitWhitespace;

/// The words behind a call's name, in order.
#[derive(Drop)]
pub struct Words<'a> {
    rest: SplitWhitespace<'a>,
}

impl<'a> Words<'a> {
    pub fn new(text: &'a str) -> Self {
        Words {
            rest: text.split_whitespace(),
        }
    }

    /// The next word.
    pub fn text(&mut self) -> Result<&'a str, Fault> {
        self.rest.next().ok_or(Fault::Unclear)
    }

    /// The next word, which is a number.
    pub fn number(&mut self) -> Result<u64, Fault> {
        whole(self.text()?).ok_or(Fault::Unclear)
    }

    /// The next word, which is a number of 32 bits.
    pub fn number32(&mut self) -> Result<u32, Fault> {
        u32::try_from(self.number()?).map_err(|_| Fault::Unclear)
    }
}
