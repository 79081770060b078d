//! A file of examples, read line by line.

use crate::command::{Answer, Command, files_of};
use crate::layout::{Layout, find};
use crate::numbers::Numbers;
use crate::wanted::Wanted;
use asm_object::{AsmFault, assemble};
use ld_base::Name;
use std::alloc::{AllocError, Global};
use std::rt::Files;
use std::sync::Wait;
use std::thread::Threads;
use test_file::{Fault, Report, bytes_at, without_remark};

/// What the lines belong to.
#[derive(Clone, Copy)]
enum Part {
    /// No example has begun.
    Head,
    Example,
    Rows,
}

/// Which bytes a line of bytes goes on with.
#[derive(Clone, Copy)]
enum Growing {
    Nothing,
    Stock,
    File,
}

/// A file of examples, as far as it is read.
#[derive(Drop)]
pub struct Book<'a> {
    alloc: Global,
    path: &'a str,
    numbers: Numbers,
    stocks: Vec<Layout>,
    part: Part,
    growing: Growing,
    /// The lines of assembler source with which the bytes go on, as far as they are read.
    source: String,
    /// The line at which the example begins.
    first: usize,
    /// Whether the table has a row.
    has_row: bool,
    command: Command,
    wanted: Wanted,
    report: Report,
}

impl<'a> Book<'a> {
    pub fn new(alloc: Global, path: &'a str) -> Result<Self, AllocError> {
        Ok(Book {
            alloc,
            path,
            numbers: Numbers::new(alloc),
            stocks: Vec::new(alloc),
            part: Part::Head,
            growing: Growing::Nothing,
            source: String::new(alloc),
            first: 0,
            has_row: false,
            command: Command::new(alloc)?,
            wanted: Wanted::new(alloc),
            report: Report::new(alloc),
        })
    }

    /// Reads all lines, runs the examples, and says which of them don't hold.
    pub fn read<R: Files + Threads + Wait + Sync + Clone + Drop + Send>(
        mut self,
        rt: &R,
        text: &str,
    ) -> Result<String, AllocError> {
        for (index, line) in text.lines().enumerate() {
            self.read_line(rt, index.saturating_add(1), line.trim())?;
        }
        self.end_example(rt)?;
        let Book { report, path, .. } = self;
        report.close(path)
    }

    fn read_line<R: Files + Threads + Wait + Sync + Clone + Drop + Send>(
        &mut self,
        rt: &R,
        number: usize,
        line: &str,
    ) -> Result<(), AllocError> {
        match self.follow(rt, number, line) {
            Ok(()) => Ok(()),
            Err(Fault::Unclear) => self.report.is_unclear(self.path, number),
            Err(Fault::Memory) => Err(AllocError),
        }
    }

    /// Does what a line says.
    fn follow<R: Files + Threads + Wait + Sync + Clone + Drop + Send>(
        &mut self,
        rt: &R,
        number: usize,
        line: &str,
    ) -> Result<(), Fault> {
        let (word, rest) = line.split_once(' ').unwrap_or((line, ""));
        if word == ">" {
            return self.push_source(rest);
        }
        self.end_source()?;
        match (self.part, word) {
            (_, "example") => self.begin(rt, number, Part::Example)?,
            (_, "rows") => self.begin(rt, number, Part::Rows)?,
            (Part::Head, "$" | "|" | "status" | "fails" | "file" | "gives") => {
                return Err(Fault::Unclear);
            }
            (_, "$") => self.command.words = Name::new(self.alloc, rest.as_bytes())?,
            (_, "|") => self.wanted.push_line(rest)?,
            (_, "load") => self.load(rt, without_remark(rest))?,
            _ => self.follow_data(rt, number, without_remark(line))?,
        }
        Ok(())
    }

    /// Does what a line without an example's text says.
    fn follow_data<R: Threads + Wait + Sync>(
        &mut self,
        rt: &R,
        number: usize,
        line: &str,
    ) -> Result<(), Fault> {
        match (self.part, line.split_once("=>")) {
            (Part::Rows, Some((changes, words))) => self.row(rt, number, changes, words),
            _ => self.lay_out(line),
        }
    }

    /// Runs the example that ends here, and begins what begins at a line.
    fn begin<R: Threads + Wait + Sync>(
        &mut self,
        rt: &R,
        number: usize,
        part: Part,
    ) -> Result<(), AllocError> {
        self.end_example(rt)?;
        self.part = part;
        self.growing = Growing::Nothing;
        self.first = number;
        self.has_row = false;
        self.command = Command::new(self.alloc)?;
        self.wanted = Wanted::new(self.alloc);
        Ok(())
    }

    fn end_example<R: Threads + Wait + Sync>(&mut self, rt: &R) -> Result<(), AllocError> {
        match self.part {
            Part::Example => {
                let files = files_of(self.alloc, self.command.files.as_slice())?;
                let answer = self.command.run(rt, self.alloc, files)?;
                let holds = self.wanted.is_all_of(&answer);
                self.tell(holds, self.first, &answer)?;
                self.judge(rt, &answer)
            }
            Part::Rows if !self.has_row => self.report.is_unclear(self.path, self.first),
            Part::Rows | Part::Head => Ok(()),
        }
    }

    /// Has the history of the example's run judged, if it made one: it is legal, each of its events.
    fn judge<R: Threads + Wait + Sync>(
        &mut self,
        rt: &R,
        answer: &Answer,
    ) -> Result<(), AllocError> {
        match self.command.judge(rt, self.alloc, answer)? {
            Some(judged) => self.tell(judged.is_legal, self.first, &judged.answer),
            None => Ok(()),
        }
    }

    /// Says of the example at a line whether it holds, and where it doesn't, what it gives.
    fn tell(&mut self, holds: bool, line: usize, answer: &Answer) -> Result<(), AllocError> {
        if holds {
            self.report.holds();
            return Ok(());
        }
        let status = answer.status;
        let gives = format!(in self.alloc; "{status} and")?;
        self.report.differs(self.path, line, gives.as_str())?;
        let text = str::from_utf8(answer.text.as_slice()).unwrap_or("bytes that are no text");
        self.report.show(text)
    }

    /// Runs a row, once for each number of its range where it has one.
    fn row<R: Threads + Wait + Sync>(
        &mut self,
        rt: &R,
        number: usize,
        changes: &str,
        words: &str,
    ) -> Result<(), Fault> {
        self.has_row = true;
        let wanted = self.wanted.of_row(self.alloc, words, &self.numbers)?;
        let (first, end) = self.range_in(changes).unwrap_or((0, 1));
        for turn in first..end {
            self.numbers.choose(turn);
            let answer = self.changed(rt, changes)?;
            let holds = wanted.is_last_of(&answer);
            self.tell(holds, number, &answer)?;
        }
        Ok(())
    }

    /// The range among the words of a row.
    fn range_in(&self, changes: &str) -> Option<(u64, u64)> {
        for word in changes.split_whitespace() {
            if let Some(range) = self.numbers.range(word) {
                return Some(range);
            }
        }
        None
    }

    /// What the table's command comes to where its last file has these changes.
    fn changed<R: Threads + Wait + Sync>(&self, rt: &R, changes: &str) -> Result<Answer, Fault> {
        let (last, others) = self
            .command
            .files
            .as_slice()
            .split_last()
            .ok_or(Fault::Unclear)?;
        let mut last = last.copy(self.alloc)?;
        last.write(changes, self.stocks.as_slice(), &self.numbers)?;
        let mut files = files_of(self.alloc, others)?;
        files.push(last.to_file(self.alloc)?)?;
        Ok(self.command.run(rt, self.alloc, files)?)
    }

    /// Names a number, says what fails or which status is wanted, begins bytes or goes on with them.
    fn lay_out(&mut self, line: &str) -> Result<(), Fault> {
        let (word, rest) = line.split_once(' ').unwrap_or((line, ""));
        match word {
            "" => Ok(()),
            "number" => self.name_number(rest),
            "status" => self.want_status(rest),
            "fails" => self.fail(rest),
            "gives" => self.want_bytes(rest),
            "stock" | "file" => self.begin_bytes(word, rest),
            _ => self.write(line),
        }
    }

    fn name_number(&mut self, rest: &str) -> Result<(), Fault> {
        let (name, value) = rest.split_once(' ').ok_or(Fault::Unclear)?;
        let value = self.numbers.read(value.trim()).ok_or(Fault::Unclear)?;
        self.numbers.add(self.alloc, name, value)?;
        Ok(())
    }

    fn want_status(&mut self, rest: &str) -> Result<(), Fault> {
        self.wanted.status = Some(self.numbers.read(rest).ok_or(Fault::Unclear)?);
        Ok(())
    }

    /// What is written are the bytes of a stock.
    fn want_bytes(&mut self, name: &str) -> Result<(), Fault> {
        let stock = find(self.stocks.as_slice(), name)?;
        self.wanted.bytes = Some(stock.bytes().to_vec(self.alloc)?);
        Ok(())
    }

    fn fail(&mut self, rest: &str) -> Result<(), Fault> {
        let (call, number) = rest.split_once(' ').ok_or(Fault::Unclear)?;
        let number = self.numbers.read(number).ok_or(Fault::Unclear)?;
        match call {
            "read" => self.command.failing_reads.push(number)?,
            "write" => self.command.failing_writes.push(number)?,
            _ => return Err(Fault::Unclear),
        }
        Ok(())
    }

    fn begin_bytes(&mut self, kind: &str, rest: &str) -> Result<(), Fault> {
        let (name, bytes) = rest.split_once(' ').unwrap_or((rest, ""));
        let layout = Layout::new(self.alloc, name)?;
        if kind == "stock" {
            self.stocks.push(layout)?;
            self.growing = Growing::Stock;
        } else {
            self.command.files.push(layout)?;
            self.growing = Growing::File;
        }
        self.write(bytes)
    }

    /// One more line of assembler source.
    fn push_source(&mut self, line: &str) -> Result<(), Fault> {
        self.source.push_str(line)?;
        self.source.push_str("\n")?;
        Ok(())
    }

    /// Goes on with the object that the lines of source denote, where there are some.
    fn end_source(&mut self) -> Result<(), Fault> {
        if self.source.is_empty() {
            return Ok(());
        }
        let object = assemble(self.alloc, self.source.as_bytes());
        self.source.clear();
        match object {
            Ok(bytes) => self.put(&bytes),
            Err(AsmFault::At(_, _)) => Err(Fault::Unclear),
            Err(AsmFault::Memory) => Err(Fault::Memory),
        }
    }

    /// Takes the bytes that the last line of bytes was about.
    fn take_last(&mut self) -> Option<Layout> {
        match self.growing {
            Growing::Nothing => None,
            Growing::Stock => self.stocks.pop(),
            Growing::File => self.command.files.pop(),
        }
    }

    /// Puts them back.
    fn put_back(&mut self, layout: Layout) -> Result<(), AllocError> {
        match self.growing {
            Growing::File => self.command.files.push(layout)?,
            Growing::Nothing | Growing::Stock => self.stocks.push(layout)?,
        }
        Ok(())
    }

    /// Goes on with these bytes.
    fn put(&mut self, bytes: &[u8]) -> Result<(), Fault> {
        let mut layout = self.take_last().ok_or(Fault::Unclear)?;
        let put = layout.put(bytes);
        self.put_back(layout)?;
        Ok(put?)
    }

    /// Goes on with the bytes of a file that lies beside the book.
    fn load<R: Files + Clone + Drop + Send>(&mut self, rt: &R, path: &str) -> Result<(), Fault> {
        let bytes = bytes_at(rt, self.alloc, path)?.ok_or(Fault::Unclear)?;
        self.put(bytes.as_slice())
    }

    /// Goes on with the bytes that the last line of bytes was about.
    fn write(&mut self, bytes: &str) -> Result<(), Fault> {
        let mut layout = self.take_last().ok_or(Fault::Unclear)?;
        let written = layout.write(bytes, self.stocks.as_slice(), &self.numbers);
        self.put_back(layout)?;
        written
    }
}
