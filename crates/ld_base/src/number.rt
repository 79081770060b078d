//! Numbers that name things: contracts see each as its number.

ghost use Rattle.std.specs.Prelude.{◌≡◌};

use std::marker::Model;

/// The serial of an object. Serials count from 1 and are never used again; 0 is the linker's own
/// object.
#[derive(Clone, Copy, Debug, PartialEq, Eq, PartialOrd, Ord, Hash)]
pub struct Serial(u64);

impl Model for Serial {
    ghost use Rattle.std.specs.Prelude.{ℕ};

    ghost Value = { ℕ };

    ghost view = { λ s. s.0 };

    ghost inverse = { λ n. record { 0 = n } };
}

impl Serial {
    /// The linker's own object.
    pub const LINKER: Serial = Serial(0);

    /// The serial with this number.
    pub fn new(number: u64) -> Self
        ensures { result ≡ number }
    {
        Serial(number)
    }

    /// Its number.
    pub fn number(self) -> u64
        ensures { result ≡ self }
    {
        self.0
    }
}

/// The number of a hart, from 0.
#[derive(Clone, Copy, Debug, PartialEq, Eq, PartialOrd, Ord, Hash)]
pub struct HartId(u32);

impl Model for HartId {
    ghost use Rattle.std.specs.Prelude.{ℕ};

    ghost Value = { ℕ };

    ghost view = { λ h. h.0 };

    ghost inverse = { λ n. record { 0 = n } };
}

impl HartId {
    /// The hart with this number.
    pub fn new(number: u32) -> Self
        ensures { result ≡ number }
    {
        HartId(number)
    }

    /// Its number.
    pub fn number(self) -> u32
        ensures { result ≡ self }
    {
        self.0
    }
}

/// The number of a namespace, from 0, which is the base.
#[derive(Clone, Copy, Debug, PartialEq, Eq, PartialOrd, Ord, Hash)]
pub struct NsId(u32);

impl Model for NsId {
    ghost use Rattle.std.specs.Prelude.{ℕ};

    ghost Value = { ℕ };

    ghost view = { λ n. n.0 };

    ghost inverse = { λ n. record { 0 = n } };
}

impl NsId {
    /// The base namespace.
    pub const BASE: NsId = NsId(0);

    /// The namespace with this number.
    pub fn new(number: u32) -> Self
        ensures { result ≡ number }
    {
        NsId(number)
    }

    /// Its number.
    pub fn number(self) -> u32
        ensures { result ≡ self }
    {
        self.0
    }
}

/// The number of a grant, from 1. Grant numbers are never used again.
#[derive(Clone, Copy, Debug, PartialEq, Eq, PartialOrd, Ord, Hash)]
pub struct GrantNo(u64);

impl Model for GrantNo {
    ghost use Rattle.std.specs.Prelude.{ℕ};

    ghost Value = { ℕ };

    ghost view = { λ g. g.0 };

    ghost inverse = { λ n. record { 0 = n } };
}

impl GrantNo {
    /// The grant with this number.
    pub fn new(number: u64) -> Self
        ensures { result ≡ number }
    {
        GrantNo(number)
    }

    /// Its number.
    pub fn number(self) -> u64
        ensures { result ≡ self }
    {
        self.0
    }
}
