//! What a reference is to.

ghost use Rattle.std.specs.Prelude.{◌≡◌};
ghost use Rattle.ld_base.specs.Pick.{names_no_version};
ghost use Rattle.sym_lookup.specs.SymFind.Reference.{want_as};

use ld_base::Want;
use std::marker::Model;
use sym_hash::{gnu_hash, sysv_hash};

/// What a reference asks of a definition's version.
#[derive(Clone, Copy)]
pub enum Asked<'a> {
    /// A relocation with this version.
    Version(&'a [u8]),
    /// A relocation without a version.
    Plain,
    /// dlsym, which names no version.
    Dlsym,
    /// dlvsym, which names this version.
    Dlvsym(&'a [u8]),
}

impl<'a> Asked<'a> {
    /// Whether a definition that is alone in sight is taken.
    pub(crate) fn names_no_version(self) -> bool
        ensures { result ≡ names_no_version (want_as self.entry) }
    {
        matches!(self, Asked::Plain | Asked::Dlsym)
    }

    /// What is asked, lent.
    pub fn of(want: &'a Want) -> Self
        ensures { want_as result ≡ want.now }
    {
        match want {
            Want::Version(version) => Asked::Version(version.as_bytes()),
            Want::Plain => Asked::Plain,
            Want::Dlsym => Asked::Dlsym,
            Want::Dlvsym(version) => Asked::Dlvsym(version.as_bytes()),
        }
    }
}

/// A reference to a name. The hashes of the name are computed once, for all objects that are searched.
#[derive(Drop)]
pub struct Sought<'a> {
    name: &'a [u8],
    asked: Asked<'a>,
    gnu: u32,
    sysv: u32,
}

impl<'a> Model for Sought<'a> {
    ghost use Rattle.std.specs.Prelude.{◌≡◌};
    ghost use Rattle.sym_lookup.specs.SymFind.Reference.{Reference, want_as};
    ghost use Rattle.sym_hash.specs.Hash.{gnu_hash, sysv_hash};

    ghost Value = { Reference };

    ghost view = { λ s. record { name = s.name.now; want = want_as s.asked } };

    ghost invariant = { λ s. (s.gnu ≡ gnu_hash s.name.now) × (s.sysv ≡ sysv_hash s.name.now) };
}

impl<'a> Sought<'a> {
    ghost use Rattle.std.specs.Prelude.{◌≡◌};
    ghost use Rattle.sym_lookup.specs.SymFind.Reference.{want_as};
    ghost use Rattle.sym_hash.specs.Hash.{gnu_hash, sysv_hash};

    /// A reference to this name.
    pub fn new(name: &'a [u8], asked: Asked<'a>) -> Self
        ensures name { result.name ≡ name.now }
        ensures want { result.want ≡ want_as asked.entry }
    {
        Sought {
            name,
            asked,
            gnu: gnu_hash(name),
            sysv: sysv_hash(name),
        }
    }

    /// The name.
    pub fn name(&self) -> &'a [u8]
        ensures { result.now ≡ self.now.name }
    {
        self.name
    }

    /// What is asked of the version.
    pub(crate) fn asked(&self) -> Asked<'a>
        ensures { want_as result ≡ self.now.want }
    {
        self.asked
    }

    /// The hash of the name in a GNU table.
    pub(crate) fn gnu(&self) -> u32
        ensures { result ≡ gnu_hash self.now.name }
    {
        self.gnu
    }

    /// The hash of the name in a System V table.
    pub(crate) fn sysv(&self) -> u32
        ensures { result ≡ sysv_hash self.now.name }
    {
        self.sysv
    }
}
