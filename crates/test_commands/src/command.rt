//! Commands, run over files in memory.

use crate::layout::Layout;
use ld_base::{Bytes, Calls, File, Files, Name};
use ldso_cli::ldso;
use library_source::{MemLibrary, MemSink};
use std::alloc::{AllocError, Global};
use std::sync::Wait;
use std::thread::Threads;

/// The status of words that are no command.
const USAGE: u8 = 120;

/// The path of the history that is judged.
const TRACE: &str = "the-trace";

/// What a command came to.
#[derive(Drop)]
pub struct Answer {
    pub status: u8,
    pub text: Vec<u8>,
}

impl Answer {
    /// Whether it is that a history is legal, with as many events as it has lines before the last.
    fn calls_legal(&self, history: &[u8]) -> bool {
        let text = str::from_utf8(history).unwrap_or("");
        count_in(self.text.as_slice()) == Some(text.lines().skip(1).count())
    }
}

/// What a history is judged to be, and whether that is legal, with all its events.
#[derive(Drop)]
pub struct Judgement {
    pub answer: Answer,
    pub is_legal: bool,
}

/// A command, the files that it finds, and which of its reads and writes fail.
#[derive(Drop)]
pub struct Command {
    pub files: Vec<Layout>,
    pub words: Name,
    pub failing_reads: Vec<u64>,
    pub failing_writes: Vec<u64>,
}

impl Command {
    pub fn new(alloc: Global) -> Result<Self, AllocError> {
        Ok(Command {
            files: Vec::new(alloc),
            words: Name::new(alloc, b"")?,
            failing_reads: Vec::new(alloc),
            failing_writes: Vec::new(alloc),
        })
    }

    /// Runs the command over these files.
    pub fn run<R: Threads + Wait + Sync>(
        &self,
        rt: &R,
        alloc: Global,
        files: Files,
    ) -> Result<Answer, AllocError> {
        let library = self.library(alloc, files)?;
        let sink = MemSink::new(alloc, calls(alloc, &self.failing_writes)?);
        run_words(
            rt,
            alloc,
            words_of(alloc, self.words.as_bytes())?,
            library,
            sink,
        )
    }

    /// What comes of the history of the run that the command makes, where it makes one and nothing failed: it is
    /// judged over the same files.
    pub fn judge<R: Threads + Wait + Sync>(
        &self,
        rt: &R,
        alloc: Global,
        answer: &Answer,
    ) -> Result<Option<Judgement>, AllocError> {
        if self.is_disturbed(answer) {
            return Ok(None);
        }
        let own = words_of(alloc, self.words.as_bytes())?;
        let history = self.history(rt, alloc, own.as_slice(), answer)?;
        let Some(words) = judging(alloc, own.as_slice(), history.as_slice())? else {
            return Ok(None);
        };
        let mut files = files_of(alloc, self.files.as_slice())?;
        files.push(File {
            path: Name::new(alloc, TRACE.as_bytes())?,
            bytes: Bytes::from_slice(alloc, history.as_slice())?,
        })?;
        let answer = self.run_undisturbed(rt, alloc, words, files)?;
        let is_legal = answer.calls_legal(history.as_slice());
        Ok(Some(Judgement { answer, is_legal }))
    }

    /// Whether it made no run, or something is to fail.
    fn is_disturbed(&self, answer: &Answer) -> bool {
        answer.status == USAGE || !self.failing_reads.is_empty() || !self.failing_writes.is_empty()
    }

    /// What it wrote; of a run whose journal it doesn't write, the journal of another one.
    fn history<R: Threads + Wait + Sync>(
        &self,
        rt: &R,
        alloc: Global,
        words: &[String],
        answer: &Answer,
    ) -> Result<Vec<u8>, AllocError> {
        if !is_verb(words, "run") || has_option(words, "--trace") {
            return answer.text.to_vec(alloc);
        }
        let files = files_of(alloc, self.files.as_slice())?;
        let traced = self.run_undisturbed(rt, alloc, with_trace(alloc, words)?, files)?;
        Ok(traced.text)
    }

    /// What these words come to over files, of which no read fails.
    fn run_undisturbed<R: Threads + Wait + Sync>(
        &self,
        rt: &R,
        alloc: Global,
        words: Vec<String>,
        files: Files,
    ) -> Result<Answer, AllocError> {
        let library = self.library(alloc, files)?;
        let sink = MemSink::new(alloc, Calls::new(alloc));
        run_words(rt, alloc, words, library, sink)
    }

    /// The files, of which some reads fail.
    fn library(&self, alloc: Global, files: Files) -> Result<MemLibrary, AllocError> {
        Ok(MemLibrary::new(alloc, files, calls(alloc, &self.failing_reads)?))
    }
}

/// What these words come to.
fn run_words<R: Threads + Wait + Sync>(
    rt: &R,
    alloc: Global,
    words: Vec<String>,
    library: MemLibrary,
    mut sink: MemSink,
) -> Result<Answer, AllocError> {
    let (outcome, _library) = ldso(rt, alloc, words, library, &mut sink);
    answer_of(alloc, outcome.status, &sink)
}

fn answer_of(alloc: Global, status: u8, sink: &MemSink) -> Result<Answer, AllocError> {
    let text = sink.bytes().to_vec(alloc)?;
    Ok(Answer { status, text })
}

fn calls(alloc: Global, numbers: &Vec<u64>) -> Result<Calls, AllocError> {
    Calls::from_slice(alloc, numbers.as_slice())
}

/// The files that are laid out so.
pub fn files_of(alloc: Global, layouts: &[Layout]) -> Result<Files, AllocError> {
    let mut files = Files::new(alloc);
    for layout in layouts {
        files.push(layout.to_file(alloc)?)?;
    }
    Ok(files)
}

/// The words by which the history of a command's run is judged: none where it makes none, where it loads more than
/// the program asks for, or where its start is refused before it names its harts.
fn judging(
    alloc: Global,
    words: &[String],
    text: &[u8],
) -> Result<Option<Vec<String>>, AllocError> {
    let runs = is_verb(words, "turns") || is_verb(words, "run");
    if !runs || has_option(words, "--preload") {
        return Ok(None);
    }
    if has_option(words, "--harts") && is_refused(text) {
        return Ok(None);
    }
    let mut judging = Vec::new(alloc);
    judging.push(String::from_str(alloc, "check")?)?;
    push_folders(alloc, &mut judging, words)?;
    judging.push(String::from_str(alloc, TRACE)?)?;
    Ok(Some(judging))
}

/// How many events a history has that is legal.
fn count_in(text: &[u8]) -> Option<usize> {
    let line = str::from_utf8(text).ok()?.trim_end();
    line.strip_prefix("end 0 legal ")?.parse().ok()
}

/// Whether this is the first of the words.
fn is_verb(words: &[String], verb: &str) -> bool {
    words.iter().take(1).any(|word| word.as_str() == verb)
}

/// The words of a run that writes its journal.
fn with_trace(alloc: Global, words: &[String]) -> Result<Vec<String>, AllocError> {
    let mut traced = Vec::new(alloc);
    for (index, word) in words.iter().enumerate() {
        traced.push(String::from_str(alloc, word.as_str())?)?;
        if index == 0 {
            traced.push(String::from_str(alloc, "--trace")?)?;
        }
    }
    Ok(traced)
}

/// Whether an option stands among the words.
fn has_option(words: &[String], name: &str) -> bool {
    words.iter().any(|word| word.as_str().starts_with(name))
}

/// Whether the history has no line but that of an opening.
fn is_refused(text: &[u8]) -> bool {
    let mut lines = str::from_utf8(text).unwrap_or("").lines();
    let _ = lines.next();
    match lines.next() {
        Some(line) => line.starts_with("end "),
        None => true,
    }
}

/// Puts the option that names folders, and its value.
fn push_folders(
    alloc: Global,
    judging: &mut Vec<String>,
    words: &[String],
) -> Result<(), AllocError> {
    let mut is_value = false;
    for word in words {
        let word = word.as_str();
        if is_value || word.starts_with("--lib") {
            judging.push(String::from_str(alloc, word)?)?;
        }
        is_value = word == "--lib";
    }
    Ok(())
}

/// The words of a line of text. Two single quotes are an empty word.
fn words_of(alloc: Global, line: &[u8]) -> Result<Vec<String>, AllocError> {
    let mut words = Vec::new(alloc);
    for word in str::from_utf8(line).unwrap_or("").split_whitespace() {
        let word = if word == "''" { "" } else { word };
        words.push(String::from_str(alloc, word)?)?;
    }
    Ok(words)
}
