//! Names with numbers.

ghost use Rattle.std.specs.Prelude.{◌≡◌, [], ℕ, List, Some, None, OnOk, if◌then◌else◌};
ghost use Rattle.std.specs.Option.{is_some, option_or};
ghost use Rattle.std.specs.Str.{bytes_eq};
ghost use Rattle.asm_uses.specs.Numbers.{is_below, number_of};

use indexmap::IndexMap;
use std::alloc::{AllocError, Global};
use std::marker::Model;

/// Names, each with the number that it was given first. Contracts see a list of both.
#[derive(Drop)]
pub struct FirstNumbers {
    numbers: IndexMap<Vec<u8>, usize>,
}

impl Model for FirstNumbers {
    ghost use Rattle.std.specs.Prelude.{List, ℕ};
    ghost use Rattle.asm_uses.specs.Spelled.{spelled_pairs};

    ghost Value = { List (List ℕ × ℕ) };

    ghost view = { λ f. spelled_pairs f.numbers.entries };
}

impl FirstNumbers {
    /// No names.
    pub fn new(alloc: Global) -> Self
        ensures { result ≡ [] }
    {
        FirstNumbers {
            numbers: IndexMap::new(alloc),
        }
    }

    /// The number of a name.
    pub fn get(&self, name: &[u8]) -> Option<usize>
        ensures { result ≡ number_of self.now name.now }
    {
        self.numbers.get(name).copied()
    }

    /// Whether a name has a number.
    pub fn contains(&self, name: &[u8]) -> bool
        ensures { result ≡ is_some (number_of self.now name.now) }
    {
        match self.get(name) {
            Some(_) => true,
            None => false,
        }
    }

    /// Whether a name has a number below this one.
    pub fn is_below(&self, name: &[u8], number: usize) -> bool
        ensures { result ≡ is_below (number_of self.now name.now) number }
    {
        match self.get(name) {
            Some(first) => first < number,
            None => false,
        }
    }

    /// Gives a name its number, unless it has one.
    ///
    /// # Errors
    ///
    /// Want of memory.
    pub fn note(&mut self, alloc: Global, name: &[u8], number: usize) -> Result<(), AllocError>
        ensures { OnOk result ((other : List ℕ) →
            number_of self.new other ≡ option_or (number_of self.old other) (if bytes_eq other name.now then Some number else None)) }
    {
        if !self.numbers.contains_key(name) {
            let name = Vec::from_slice(alloc, name)?;
            self.numbers.insert(name, number)?;
        }
        Ok(())
    }
}
