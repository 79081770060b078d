//! A file of calls, read line by line.

use crate::{Fault, Report, text_at, whole, without_remark};
use std::alloc::{AllocError, Global};
use std::rt::Files;

/// The calls that the lines of a file may name.
pub trait Calls {
    /// What a call gives.
    fn answer(&mut self, line: &str) -> Result<String, Fault>;
}

/// A file of calls, as far as it is read. A line is a call with its arguments, an equals sign between
/// spaces, and the answer.
#[derive(Drop)]
pub struct Sheet<C> {
    calls: C,
    report: Report,
}

impl<C: Calls + Drop> Sheet<C> {
    pub fn new(alloc: Global, calls: C) -> Self {
        let report = Report::new(alloc);
        Sheet { calls, report }
    }

    /// Makes all calls, and says which of them don't hold.
    pub fn read(mut self, path: &str, text: &str) -> Result<String, AllocError> {
        let read = self.read_lines(path, text);
        let Sheet { report, .. } = self;
        match read {
            Ok(()) => report.close(path),
            Err(error) => Err(error),
        }
    }

    fn read_lines(&mut self, path: &str, text: &str) -> Result<(), AllocError> {
        for (index, line) in text.lines().enumerate() {
            let line = without_remark(line.trim());
            if !line.is_empty() {
                self.read_line(path, index.saturating_add(1), line)?;
            }
        }
        Ok(())
    }

    fn read_line(&mut self, path: &str, number: usize, line: &str) -> Result<(), AllocError> {
        match self.follow(path, number, line) {
            Ok(()) => Ok(()),
            Err(Fault::Unclear) => self.report.is_unclear(path, number),
            Err(Fault::Memory) => Err(AllocError),
        }
    }

    /// Makes the call of a line, and compares its answer.
    fn follow(&mut self, path: &str, number: usize, line: &str) -> Result<(), Fault> {
        let (call, wanted) = line.split_once(" = ").ok_or(Fault::Unclear)?;
        let answer = self.calls.answer(call)?;
        if agree(answer.as_str(), wanted.trim()) {
            self.report.holds();
        } else {
            self.report.differs(path, number, answer.as_str())?;
        }
        Ok(())
    }
}

/// What is said of the file of calls at a path.
pub fn said_of<R: Files + Clone + Drop + Send, C: Calls + Drop>(
    rt: &R,
    alloc: Global,
    path: &str,
    calls: C,
) -> Result<String, AllocError> {
    match text_at(rt, alloc, path)? {
        Some(text) => Sheet::new(alloc, calls).read(path, text.as_str()),
        None => format!(in alloc; "{path}: can't be read\n"),
    }
}

/// Whether two answers are the same number or the same text.
fn agree(given: &str, wanted: &str) -> bool {
    match (whole(given), whole(wanted)) {
        (Some(given), Some(wanted)) => given == wanted,
        _ => given == wanted,
    }
}
