//! Numbers of versions.

ghost use Rattle.std.specs.Prelude.{◌≡◌, ◌^◌, ◌<◌};

use std::marker::Model;

/// The number of a version among all that are needed, from 0: so small that a few lengths of lists may be
/// added to it. Contracts see it as its number.
#[derive(Clone, Copy)]
pub struct VersionNumber(u128);

impl Model for VersionNumber {
    ghost use Rattle.std.specs.Prelude.{ℕ, ◌^◌, ◌<◌};

    ghost Value = { ℕ };

    ghost view = { λ n. n.0 };

    ghost invariant = { λ n. n.0 < 2 ^ 127 };

    ghost inverse = { λ n. record { 0 = n } };
}

impl VersionNumber {
    /// A number.
    pub(crate) fn new(number: u128) -> Self
        requires { number < 2 ^ 127 }
        ensures { result ≡ number }
    {
        VersionNumber(number)
    }

    /// The number.
    pub fn get(self) -> u128
        ensures value { result ≡ self }
        ensures bound { result < 2 ^ 127 }
    {
        self.0
    }
}
