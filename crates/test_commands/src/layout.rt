//! Bytes that are laid out word by word, as an assembler's data is.

use crate::numbers::Numbers;
use ld_base::{Bytes, File, Name};
use std::alloc::{AllocError, Global};
use test_file::Fault;

/// What is done with the words behind a directive.
#[derive(Clone, Copy)]
enum Directive {
    /// Each is the name of bytes that stand elsewhere.
    Copy,
    /// The place where the next bytes go.
    At,
    /// How many bytes there are: the others are cut off, or zeros are put behind them.
    Size,
    /// Each is a number of so many bytes, the lowest first.
    Number(usize),
    /// Each is text.
    Text,
    /// Each is text that ends in a zero byte.
    EndedText,
    /// How many zero bytes there are.
    Zero,
    /// How many doublewords there are.
    Fill,
    /// The doubleword of which there are so many.
    Filling(u64),
}

impl Directive {
    fn named(word: &str) -> Option<Self> {
        match word {
            "copy" => Some(Directive::Copy),
            "at" => Some(Directive::At),
            "size" => Some(Directive::Size),
            ".byte" => Some(Directive::Number(1)),
            ".half" => Some(Directive::Number(2)),
            ".word" => Some(Directive::Number(4)),
            ".dword" => Some(Directive::Number(8)),
            ".ascii" => Some(Directive::Text),
            ".asciz" => Some(Directive::EndedText),
            ".zero" => Some(Directive::Zero),
            ".fill" => Some(Directive::Fill),
            _ => None,
        }
    }
}

/// Bytes with a name: a file's path, or what others copy them by.
#[derive(Drop)]
pub struct Layout {
    name: Name,
    bytes: Vec<u8>,
    /// Where the next byte goes.
    at: usize,
}

impl Layout {
    pub fn new(alloc: Global, name: &str) -> Result<Self, AllocError> {
        Ok(Layout {
            name: Name::new(alloc, name.as_bytes())?,
            bytes: Vec::new(alloc),
            at: 0,
        })
    }

    pub fn copy(&self, alloc: Global) -> Result<Self, AllocError> {
        Ok(Layout {
            name: Name::new(alloc, self.name.as_bytes())?,
            bytes: self.bytes.to_vec(alloc)?,
            at: self.at,
        })
    }

    /// The file that is laid out so.
    pub fn to_file(&self, alloc: Global) -> Result<File, AllocError> {
        Ok(File {
            path: Name::new(alloc, self.name.as_bytes())?,
            bytes: Bytes::from_slice(alloc, self.bytes.as_slice())?,
        })
    }

    pub fn bytes(&self) -> &[u8] {
        self.bytes.as_slice()
    }

    /// Puts lines of text, a bar between two of them, each with a line feed behind it.
    fn put_text(&mut self, text: &str) -> Result<(), AllocError> {
        for line in text.split(" | ") {
            self.put(line.as_bytes())?;
            self.put(b"\n")?;
        }
        Ok(())
    }

    /// Lays out what a line says.
    pub fn write(&mut self, line: &str, stocks: &[Layout], numbers: &Numbers) -> Result<(), Fault> {
        match line.trim().strip_prefix("text ") {
            Some(text) => Ok(self.put_text(text)?),
            None => self.write_words(line, stocks, numbers),
        }
    }

    /// Lays out the words of a line.
    fn write_words(
        &mut self,
        line: &str,
        stocks: &[Layout],
        numbers: &Numbers,
    ) -> Result<(), Fault> {
        let mut directive = None;
        for word in line.split_whitespace() {
            directive = match (Directive::named(word), directive) {
                (Some(next), _) => Some(next),
                (None, Some(now)) => Some(self.follow(now, word, stocks, numbers)?),
                (None, None) => return Err(Fault::Unclear),
            };
        }
        Ok(())
    }

    /// Does with a word what its directive says, which may be another for the next word.
    fn follow(
        &mut self,
        directive: Directive,
        word: &str,
        stocks: &[Layout],
        numbers: &Numbers,
    ) -> Result<Directive, Fault> {
        match directive {
            Directive::Copy => self.put(find(stocks, word)?.bytes.as_slice())?,
            Directive::Text => self.put(word.as_bytes())?,
            Directive::EndedText => {
                self.put(word.as_bytes())?;
                self.put(b"\0")?;
            }
            Directive::At => self.at = number(numbers, word)? as usize,
            Directive::Size => self.bytes.resize(number(numbers, word)? as usize, 0)?,
            Directive::Number(width) => self.put_low(number(numbers, word)?, width)?,
            Directive::Zero => self.fill(number(numbers, word)?, 0, 1)?,
            Directive::Fill => return Ok(Directive::Filling(number(numbers, word)?)),
            Directive::Filling(count) => self.fill(count, number(numbers, word)?, 8)?,
        }
        Ok(directive)
    }

    /// Puts the lowest bytes of a number, so many of them.
    fn put_low(&mut self, value: u64, width: usize) -> Result<(), AllocError> {
        for byte in value.to_le_bytes().iter().take(width) {
            self.put_byte(*byte)?;
        }
        Ok(())
    }

    /// Puts the lowest bytes of a number so many times.
    fn fill(&mut self, count: u64, value: u64, width: usize) -> Result<(), AllocError> {
        for _ in 0..count {
            self.put_low(value, width)?;
        }
        Ok(())
    }

    /// Puts these bytes.
    pub fn put(&mut self, bytes: &[u8]) -> Result<(), AllocError> {
        for byte in bytes {
            self.put_byte(*byte)?;
        }
        Ok(())
    }

    /// Puts a byte at the place, behind zeros where nothing stands before it.
    fn put_byte(&mut self, byte: u8) -> Result<(), AllocError> {
        if self.at < self.bytes.len() {
            self.bytes[self.at] = byte;
        } else {
            self.bytes.resize(self.at, 0)?;
            self.bytes.push(byte)?;
        }
        self.at = self.at.saturating_add(1);
        Ok(())
    }
}

/// The bytes with a name.
pub fn find<'a>(stocks: &'a [Layout], name: &str) -> Result<&'a Layout, Fault> {
    stocks
        .iter()
        .find(|stock| stock.name.is(name.as_bytes()))
        .ok_or(Fault::Unclear)
}

fn number(numbers: &Numbers, word: &str) -> Result<u64, Fault> {
    numbers.read(word).ok_or(Fault::Unclear)
}
