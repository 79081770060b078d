//! A library over the files of the system.

ghost use Rattle.std.specs.Prelude.{◌≡◌, ◌<◌, ◌≤◌, length, take, vec_len, IfOk};
ghost use Rattle.std.specs.Result.{IsErrOf};
ghost use Rattle.std.specs.Str.{IsUtf8};
ghost use Rattle.std.specs.IoError.{error_kind};
ghost use Rattle.std.specs.Io.KnownBytes.{Consumes, IsAtEnd, ReadConsumes};
ghost use Rattle.library_source.specs.Count.{CountsIf};
ghost use Rattle.library_source.specs.Folder.{IsFront, read_error, read_limit};

use crate::{Library, ReadError};
use std::alloc::Global;
use std::fs;
use std::io::{self, ErrorKind, Read};
use std::marker::Model;
use std::rt::Files;

/// How many bytes of a file are read at most: one more than the longest file that is accepted has.
pub const READ_LIMIT: usize = 8 * 1024 * 1024 + 1;

/// How much room is made at a time for a file that is longer than its length says.
const PIECE: usize = 16 * 1024;

/// The files of the system. A path that isn't UTF-8 names none of them, and what isn't a regular file
/// (a folder, a pipe, a device) is a read that failed. No clause tells what a file holds, nor that a path
/// is opened: that is shown by tests alone.
#[derive(Drop)]
pub struct FolderLibrary<R> {
    rt: R,
    alloc: Global,
    faults: u64,
    misses: u64,
}

impl<R> Model for FolderLibrary<R> {
    ghost use Rattle.library_source.specs.Folder.{FolderState};

    ghost Value = { FolderState };

    ghost view = { λ f. record { faults = f.faults; misses = f.misses } };
}

impl<R: Files + Clone + Drop + Send> FolderLibrary<R> {
    /// The files that this runtime reaches.
    pub fn new(rt: R, alloc: Global) -> Self
        ensures { result ≡ record { faults = 0; misses = 0 } }
    {
        FolderLibrary {
            rt,
            alloc,
            faults: 0,
            misses: 0,
        }
    }
}

impl<R: Files + Clone + Drop + Send> Library for FolderLibrary<R> {
    ghost use Rattle.std.specs.Prelude.{None};

    ghost files = { λ _. None };

    ghost faults = { λ f. f.faults };

    ghost misses = { λ f. f.misses };

    fn read(&mut self, path: &[u8]) -> Result<Vec<u8>, ReadError>
        ensures bound { IfOk result (λ bytes. vec_len bytes ≤ read_limit) }
        ensures text { ¬ (IsUtf8 path.now) → IsErrOf result ReadError.Missing }
        ensures faults { CountsIf (IsErrOf result ReadError.Failed)
            self.old.faults self.new.faults }
        ensures misses { CountsIf (IsErrOf result ReadError.Missing)
            self.old.misses self.new.misses }
    {
        let answer = read_file(&self.rt, self.alloc, path);
        match answer {
            Err(ReadError::Missing) => self.misses = self.misses.saturating_add(1),
            Err(ReadError::Failed) => self.faults = self.faults.saturating_add(1),
            Ok(_) | Err(ReadError::Memory) => {}
        }
        answer
    }
}

impl From<io::Error> for ReadError {
    ghost from_gives = { λ error e. e ≡ read_error (error_kind error) };

    fn from(error: io::Error) -> Self {
        match error.kind() {
            ErrorKind::NotFound => ReadError::Missing,
            ErrorKind::OutOfMemory => ReadError::Memory,
            _ => ReadError::Failed,
        }
    }
}

/// The bytes of the file at a path.
fn read_file<R: Files>(rt: &R, alloc: Global, path: &[u8]) -> Result<Vec<u8>, ReadError>
    ensures bound { IfOk result (λ bytes. vec_len bytes ≤ read_limit) }
    ensures text { ¬ (IsUtf8 path.now) → IsErrOf result ReadError.Missing }
{
    let Ok(path) = str::from_utf8(path) else {
        return Err(ReadError::Missing);
    };
    let metadata = fs::metadata(rt, path)?;
    // A pipe would hold up whoever opens it, and a device may have no end.
    if !metadata.is_file() {
        return Err(ReadError::Failed);
    }
    let mut file = fs::open(rt, path)?;
    Ok(read_front(alloc, &mut file, metadata.len())?)
}

/// The bytes that a reader gives, up to the limit: all of them where they are fewer. Room is made for the
/// length that is told and one byte more, where the read that finds the end goes.
fn read_front<F: Read>(alloc: Global, file: &mut F, told: u64) -> io::Result<Vec<u8>>
    ensures { IfOk result (λ bytes.
        IsFront (F.remaining file.old) (F.remaining file.new) bytes.items) }
{
    let room = told.min(READ_LIMIT as u64 - 1) as usize + 1;
    let mut bytes = Vec::with_capacity(alloc, room)?;
    bytes.resize(room, 0)?;
    let mut filled = fill(file, &mut bytes)?;
    while filled == bytes.len() && filled < READ_LIMIT {
        bytes.resize(READ_LIMIT.min(filled + PIECE), 0)?;
        filled += fill(file, &mut bytes[filled..])?;
    }
    bytes.truncate(filled);
    Ok(bytes)
}

/// Reads until the room is full or the reader is at its end.
fn fill<F: Read>(file: &mut F, room: &mut [u8]) -> io::Result<usize>
    ensures bound { IfOk result (λ n. n ≤ length room.new) }
    ensures taken { IfOk result (λ n.
        Consumes (F.remaining file.old) (F.remaining file.new) (take n room.new)) }
    ensures whole { IfOk result (λ n. n < length room.new → IsAtEnd (F.remaining file.new)) }
{
    let mut filled = 0;
    while filled < room.len() {
        let count = read_once(file, &mut room[filled..])?;
        if count == 0 {
            return Ok(filled);
        }
        filled += count;
    }
    Ok(filled)
}

/// One read of a reader, which is made again where a signal has interrupted it.
fn read_once<F: Read>(file: &mut F, piece: &mut [u8]) -> io::Result<usize>
    ensures bound { IfOk result (λ n. n ≤ length piece.new) }
    ensures bytes { ReadConsumes (F.remaining file.old) (F.remaining file.new) result piece.new }
{
    for _ in 0..u64::MAX {
        match file.read(piece) {
            Err(error) if error.kind() == ErrorKind::Interrupted => {}
            answer => return answer,
        }
    }
    Err(ErrorKind::Interrupted.into())
}
