//! A set as a library.

ghost use Rattle.std.specs.Prelude.{◌≡◌, []};

use ld_base::{Calls, Files};
use library_source::{Library, MemLibrary, ReadError};
use std::alloc::Global;
use std::marker::Model;

/// The files of a set in memory, of which no read fails.
#[derive(Drop)]
pub struct SetLibrary {
    library: MemLibrary,
    ghost steady: { library.fail ≡ [] },
}

impl Model for SetLibrary {
    ghost use Rattle.lib_gen.specs.Library.{SetState};

    ghost Value = { SetState };

    ghost view = { λ s. record { files = s.library.files; misses = s.library.misses } };
}

impl SetLibrary {
    /// A library of these files.
    pub fn new(alloc: Global, files: Files) -> Self
        ensures { result ≡ record { files = files; misses = 0 } }
    {
        SetLibrary {
            library: MemLibrary::new(alloc, files, Calls::new(alloc)),
        }
    }
}

impl Library for SetLibrary {
    ghost use Rattle.std.specs.Prelude.{Some};

    ghost files = { λ s. Some s.files };

    ghost faults = { λ _. 0 };

    ghost misses = { λ s. s.misses };

    fn read(&mut self, path: &[u8]) -> Result<Vec<u8>, ReadError> {
        self.library.read(path)
    }
}
