//! A library whose counts only rise.

ghost use Rattle.std.specs.Prelude.{◌≡◌};
ghost use Rattle.world_answers.specs.GuestsPart.Counting.{Rise, counts_at};

use hart_linker::RunNaming;
use library_source::{Library, ReadError};
use std::marker::{Model, PhantomData};

/// A library whose counts are no lower than when the seats of the run's harts were made. Contracts see it as
/// the library.
#[derive(Drop)]
pub(crate) struct Rising<J: RunNaming, L: Library + Drop> {
    library: L,
    of: PhantomData<J>,
}

impl<J: RunNaming, L: Library + Drop> Model for Rising<J, L> {
    ghost use Rattle.world_answers.specs.GuestsPart.Counting.{Rise, counts_at};

    ghost Value = { L };

    ghost coded = { L.code };

    ghost view = { λ s. s.library };

    ghost invariant = { λ s. Rise J.counts (counts_at L.faults L.misses s.library) };
}

impl<J: RunNaming, L: Library + Drop> Rising<J, L> {
    /// A library with such counts.
    pub(crate) fn of(library: L) -> Self
        requires { Rise J.counts (counts_at L.faults L.misses library) }
        ensures { result ≡ library }
    {
        Rising {
            library,
            of: PhantomData,
        }
    }

    /// The library itself.
    pub(crate) fn into_library(self) -> L
        ensures library { result ≡ self }
        ensures rise { Rise J.counts (counts_at L.faults L.misses result) }
    {
        let Rising { library, of: _ } = self;
        library
    }
}

impl<J: RunNaming, L: Library + Drop> Library for Rising<J, L> {
    ghost files = { L.files };

    ghost faults = { L.faults };

    ghost misses = { L.misses };

    fn read(&mut self, path: &[u8]) -> Result<Vec<u8>, ReadError> {
        self.library.read(path)
    }
}
