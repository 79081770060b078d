//! What is searched for the references of an object.

ghost use Rattle.std.specs.Prelude.{◌≡◌, map, IfOk};
ghost use Rattle.scope_lists.specs.Kept.{entry_in};

use crate::definers::Definers;
use ld_base::Serial;
use scope_rule::Places;
use std::alloc::{AllocError, Global};

/// An object that is searched: its serial, and its place in load order where it is there.
#[derive(Clone, Copy)]
pub struct Searched {
    pub serial: Serial,
    pub place: Option<usize>,
}

/// Where the references of an object are searched, in order. What it shares with other objects stands once.
#[derive(Clone, Copy)]
pub struct ScopeParts<'a> {
    /// What comes before the global list.
    pub before: &'a [Searched],
    /// The global list; empty where the object doesn't see all of it.
    pub global: &'a [Searched],
    /// Which objects of that list have definitions under a hash, where this was made.
    pub definers: Option<&'a Definers>,
    /// What comes behind it.
    pub after: &'a [Searched],
}

/// The object with a serial.
fn entry(places: &Places, serial: Serial) -> Searched
    ensures { result ≡ entry_in places.now serial }
{
    Searched {
        serial,
        place: places.get(serial),
    }
}

/// The objects with these serials, each found once.
pub(crate) fn entries(
    alloc: Global,
    places: &Places,
    serials: &[Serial],
) -> Result<Vec<Searched>, AllocError>
    ensures { IfOk result (λ found. found.items ≡ map (entry_in places.now) serials.now) }
{
    serials
        .iter()
        .map(|serial| entry(places, *serial))
        .collect(alloc)
}

impl<'a> ScopeParts<'a> {
    ghost use Rattle.std.specs.Prelude.{◌≡◌, None};

    /// Those in which nothing is searched.
    pub(crate) fn none() -> Self
        ensures { result.definers ≡ None }
    {
        ScopeParts {
            before: &[],
            global: &[],
            definers: None,
            after: &[],
        }
    }
}
