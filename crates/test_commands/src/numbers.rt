//! Numbers: decimal, hexadecimal, below 0, and by name.

use ld_base::Name;
use std::alloc::{AllocError, Global};
use test_file::whole;

/// A number with a name.
#[derive(Drop)]
struct Constant {
    name: Name,
    value: u64,
}

/// The numbers that have names, and which number of a range is meant.
#[derive(Drop)]
pub struct Numbers {
    constants: Vec<Constant>,
    turn: u64,
}

impl Numbers {
    pub fn new(alloc: Global) -> Self {
        Numbers {
            constants: Vec::new(alloc),
            turn: 0,
        }
    }

    /// Gives a number a name.
    pub fn add(&mut self, alloc: Global, name: &str, value: u64) -> Result<(), AllocError> {
        let name = Name::new(alloc, name.as_bytes())?;
        self.constants.push(Constant { name, value })?;
        Ok(())
    }

    /// The number with a name.
    pub fn named(&self, name: &str) -> Option<u64> {
        self.constants
            .iter()
            .find(|constant| constant.name.is(name.as_bytes()))
            .map(|constant| constant.value)
    }

    /// From now on a range stands for this one of its numbers.
    pub fn choose(&mut self, turn: u64) {
        self.turn = turn;
    }

    /// The number that a word is, if it is one.
    pub fn read(&self, word: &str) -> Option<u64> {
        if self.range(word).is_some() {
            return Some(self.turn);
        }
        match self.named(word) {
            Some(value) => Some(value),
            None => whole(word),
        }
    }

    /// The first number of a range `A..B`, and the one behind its last.
    pub fn range(&self, word: &str) -> Option<(u64, u64)> {
        let (first, end) = word.split_once("..")?;
        Some((whole(first)?, whole(end)?))
    }
}
