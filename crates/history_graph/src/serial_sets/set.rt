//! The set.

ghost use Rattle.std.specs.Prelude.{◌≡◌, ◌==◌};
ghost use Rattle.std.specs.List.{list_any};

use ld_base::Serial;
use std::marker::Model;

/// Serials, and whether they ascend, which is found out once: one is searched by halves then. Contracts see
/// the list.
#[derive(Drop)]
pub struct SerialSet<'a> {
    serials: &'a [Serial],
    ascends: bool,
}

impl<'a> Model for SerialSet<'a> {
    ghost use Rattle.std.specs.Prelude.{◌≡◌, ℕ, List, true};
    ghost use Rattle.std.specs.List.Sorted.{IsNonDecreasing};

    ghost Value = { List ℕ };

    ghost view = { λ s. s.serials.now };

    ghost invariant = { λ s. s.ascends ≡ true → IsNonDecreasing s.serials.now };
}

impl<'a> SerialSet<'a> {
    /// The set of these serials.
    pub fn new(serials: &'a [Serial]) -> Self
        ensures { result ≡ serials.now }
    {
        SerialSet {
            serials,
            ascends: serials.is_sorted(),
        }
    }

    /// Whether a serial is one of them.
    pub fn has(&self, serial: Serial) -> bool
        ensures { result ≡ list_any (λ y. y == serial) self.now }
    {
        if self.ascends {
            self.serials.binary_search(&serial).is_ok()
        } else {
            self.serials.contains(&serial)
        }
    }
}
