//! What is said of a file of tests.

use std::alloc::{AllocError, Global};

/// What was found in a file so far.
#[derive(Drop)]
pub struct Report {
    text: String,
    hold: u64,
    differ: u64,
}

impl Report {
    pub fn new(alloc: Global) -> Self {
        Report {
            text: String::new(alloc),
            hold: 0,
            differ: 0,
        }
    }

    /// A test holds.
    pub fn holds(&mut self) {
        self.hold = self.hold.saturating_add(1);
    }

    /// The test at a line doesn't hold: it gives this.
    pub fn differs(&mut self, path: &str, line: usize, gives: &str) -> Result<(), AllocError> {
        self.differ = self.differ.saturating_add(1);
        writeln!(self.text, "{path}:{line} gives {gives}")
    }

    /// Shows a text, each line behind a bar.
    pub fn show(&mut self, text: &str) -> Result<(), AllocError> {
        for line in text.lines() {
            self.text.push_str("    | ")?;
            self.text.push_str(line)?;
            self.text.push_str("\n")?;
        }
        Ok(())
    }

    /// A line isn't written as a line of a test is.
    pub fn is_unclear(&mut self, path: &str, line: usize) -> Result<(), AllocError> {
        self.differ = self.differ.saturating_add(1);
        writeln!(self.text, "{path}:{line} can't be read")
    }

    /// What was said, and whether all tests hold or how many do.
    pub fn close(self, path: &str) -> Result<String, AllocError> {
        let Report {
            mut text,
            hold,
            differ,
        } = self;
        if differ == 0 && hold > 0 {
            writeln!(text, "{path}: all hold")?;
        } else {
            writeln!(text, "{path}: {hold} hold, {differ} don't")?;
        }
        Ok(text)
    }
}
