//! The calls by their names.

use library_source::{FolderLibrary, IoSink, Library, put_all};
use std::alloc::Global;
use std::fs;
use test_file::{Calls, Fault, Words, show};

/// The calls, of the files that the runtime reaches.
#[derive(Drop)]
pub struct FileCalls {
    rt: HostRuntime,
    alloc: Global,
}

impl FileCalls {
    pub fn new(rt: HostRuntime, alloc: Global) -> Self {
        FileCalls { rt, alloc }
    }

    /// The text of the file at a path.
    fn read(&self, path: &str) -> Result<String, Fault> {
        let mut library = FolderLibrary::new(self.rt.clone()?, self.alloc);
        match library.read(path.as_bytes()) {
            Ok(bytes) => String::from_utf8(bytes).map_err(|_| Fault::Unclear),
            Err(error) => show(self.alloc, error),
        }
    }

    /// How many bytes are read of a file that has so many.
    fn read_long(&self, words: &mut Words) -> Result<String, Fault> {
        let bytes = vec![in self.alloc; 7u8; words.number()? as usize]?;
        if fs::write(&self.rt, "long", bytes.as_slice()).is_err() {
            return Err(Fault::Unclear);
        }
        let mut library = FolderLibrary::new(self.rt.clone()?, self.alloc);
        let read = library.read(b"long").map(|front| front.len());
        show(self.alloc, read)
    }
}

/// What comes of a word that is written where there is room for three bytes, and what is there then.
fn write(alloc: Global, words: &mut Words) -> Result<String, Fault> {
    let mut room = *b"---";
    let answer = put_all(&mut IoSink::new(&mut room[..]), words.text()?.as_bytes());
    let there = str::from_utf8(&room).map_err(|_| Fault::Unclear)?;
    Ok(format!(in alloc; "{answer:?} {there}")?)
}

impl Calls for FileCalls {
    fn answer(&mut self, line: &str) -> Result<String, Fault> {
        let (call, rest) = line.split_once(' ').unwrap_or((line, ""));
        match call {
            "read" => self.read(rest),
            "read_long" => self.read_long(&mut Words::new(rest)),
            "write" => write(self.alloc, &mut Words::new(rest)),
            _ => Err(Fault::Unclear),
        }
    }
}
