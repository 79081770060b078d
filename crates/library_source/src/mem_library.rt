//! A library in memory.

ghost use Rattle.std.specs.Prelude.{◌≡◌, ◌↔◌, Contains, IfOk};
ghost use Rattle.std.specs.Result.{IsErrOf};
ghost use Rattle.std.specs.Option.{option_copied};
ghost use Rattle.library_source.specs.Count.{CountsIf, one_more};
ghost use Rattle.library_source.specs.Files.{file_at};

use crate::{Library, ReadError};
use ld_base::{Calls, File, Files};
use std::alloc::Global;
use std::marker::Model;

/// Files in memory, of which some reads fail.
#[derive(Drop)]
pub struct MemLibrary {
    alloc: Global,
    files: Files,
    fail: Calls,
    calls: u64,
    faults: u64,
    misses: u64,
}

impl Model for MemLibrary {
    ghost use Rattle.library_source.specs.Memory.{LibraryState};

    ghost Value = { LibraryState };

    ghost view = { λ m. record {
      files = m.files;
      fail = m.fail;
      calls = m.calls;
      faults = m.faults;
      misses = m.misses;
    } };
}

impl MemLibrary {
    /// A library of these files, whose reads of these numbers fail. The first read has number 1.
    pub fn new(alloc: Global, files: Files, fail: Calls) -> Self
        ensures { result
            ≡ record { files = files; fail = fail; calls = 0; faults = 0; misses = 0 } }
    {
        MemLibrary {
            alloc,
            files,
            fail,
            calls: 0,
            faults: 0,
            misses: 0,
        }
    }

    /// How often it failed.
    pub fn faults(&self) -> u64
        ensures { result ≡ self.now.faults }
    {
        self.faults
    }

    /// How often it had no file at a path.
    pub fn misses(&self) -> u64
        ensures { result ≡ self.now.misses }
    {
        self.misses
    }
}

impl Library for MemLibrary {
    ghost use Rattle.std.specs.Prelude.{Some};

    ghost files = { λ m. Some m.files };

    ghost faults = { λ m. m.faults };

    ghost misses = { λ m. m.misses };

    fn read(&mut self, path: &[u8]) -> Result<Vec<u8>, ReadError>
        ensures files { self.new.files ≡ self.old.files }
        ensures found { IfOk result (λ bytes. file_at self.old.files path.now ≡ Some bytes.items) }
        ensures absent { IsErrOf result ReadError.Missing → file_at self.old.files path.now ≡ None }

        // It fails at the listed calls, and at no other.
        ensures fails { IsErrOf result ReadError.Failed
            ↔ Contains self.old.fail (one_more self.old.calls) }
        ensures list { self.new.fail ≡ self.old.fail }
        ensures calls { self.new.calls ≡ one_more self.old.calls }

        // Each count rises at its own answer alone.
        ensures faults { CountsIf (IsErrOf result ReadError.Failed)
            self.old.faults self.new.faults }
        ensures misses { CountsIf (IsErrOf result ReadError.Missing)
            self.old.misses self.new.misses }
    {
        self.calls = self.calls.saturating_add(1);
        if self.fail.as_slice().contains(&self.calls) {
            self.faults = self.faults.saturating_add(1);
            return Err(ReadError::Failed);
        }
        match bytes_at(self.files.as_slice(), path) {
            Some(bytes) => Ok(bytes.to_vec(self.alloc)?),
            None => {
                self.misses = self.misses.saturating_add(1);
                Err(ReadError::Missing)
            }
        }
    }
}

/// The bytes of the first file of the path.
fn bytes_at<'a>(files: &'a [File], path: &[u8]) -> Option<&'a [u8]>
    ensures { option_copied result ≡ file_at files.now path.now }
{
    files
        .iter()
        .find(|file| file.path.as_bytes() == path)
        .map(|file| file.bytes.as_slice())
}
