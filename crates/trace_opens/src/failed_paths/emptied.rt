//! A library in which one file is empty.

ghost use Rattle.std.specs.Prelude.{◌≡◌};

use ld_base::Name;
use library_source::{Library, ReadError};
use std::alloc::Global;

/// A library as it is, but that the file at a path is empty.
#[derive(Drop)]
pub(crate) struct EmptyAt<'a, L: Library> {
    alloc: Global,
    library: L,
    path: &'a Name,
}

impl<'a, L: Library> EmptyAt<'a, L> {
    /// The library with an empty file at a path.
    pub(crate) fn new(alloc: Global, library: L, path: &'a Name) -> Self
        ensures library { result.library ≡ library }
        ensures path { result.path ≡ path.entry }
    {
        EmptyAt {
            alloc,
            library,
            path,
        }
    }

    /// The library itself.
    pub(crate) fn into_library(self) -> L
        ensures { result ≡ self.entry.library }
    {
        self.library
    }
}

impl<'a, L: Library> Library for EmptyAt<'a, L> {
    ghost use Rattle.std.specs.Option.{option_map};
    ghost use Rattle.trace_opens.specs.FailedPaths.Emptied.{emptied};

    ghost files = { λ e. option_map (emptied e.path.now) (L.files e.library) };

    ghost faults = { λ e. L.faults e.library };

    ghost misses = { λ e. L.misses e.library };

    fn read(&mut self, path: &[u8]) -> Result<Vec<u8>, ReadError> {
        if self.path.is(path) {
            return Ok(Vec::new(self.alloc));
        }
        self.library.read(path)
    }
}
