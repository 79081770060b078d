//! Sets of doublewords of memory.

ghost use Rattle.std.specs.Prelude.{◌≡◌, ◌==◌, ◌||◌, ◌&&◌, ◌+◌, ◌*◌, ◌/◌, ◌<◌, ◌≤◌, ◌^◌, ℕ, false};
ghost use Rattle.std.specs.Prelude.{length, nat_le, nat_lt, slice_index, IfOk, OnOk};
ghost use Rattle.elf_dynamic.specs.Marks.{is_marked};
ghost use Rattle.elf_dynamic.specs.Memory.{overlaps};
ghost use Rattle.elf_dynamic.specs.Named.{doubleword};

use ld_base::Span;
use std::alloc::{AllocError, Global};

/// How many doublewords a word of a set tells of.
const BITS: u64 = 64;
/// The bytes of a doubleword.
const DOUBLEWORD: u64 = 8;

/// A set of doublewords by their numbers, from the lowest address on: a bit for each, up to the
/// greatest of them.
#[derive(Drop)]
pub(crate) struct Marks {
    words: Vec<u64>,
}

impl Marks {
    /// No doubleword.
    #[tactic(auto, using(crate::proofs::Ranges::none_marked))]
    pub(crate) fn new(alloc: Global) -> Self
        ensures { (d : ℕ) → is_marked result.words.items d ≡ false }
    {
        Marks {
            words: Vec::new(alloc),
        }
    }

    /// Whether a doubleword is in the set.
    #[tactic(auto, unfolding(crate::specs::Marks::is_marked))]
    pub(crate) fn has(&self, d: u64) -> bool
        ensures { result ≡ is_marked self.now.words.items d }
    {
        match self.words.get((d / BITS) as usize) {
            Some(word) => (*word >> (d % BITS)) % 2 == 1,
            None => false,
        }
    }

    /// Makes room for so many words.
    #[tactic(auto, using(crate::proofs::Ranges::get_or_zero))]
    fn grow(&mut self, len: usize) -> Result<(), AllocError>
        ensures room { OnOk result (len ≤ length self.new.words.items) }
        ensures same { OnOk result ((k : ℕ) → slice_index self.new.words.items k ≡ slice_index self.old.words.items k) }
    {
        while self.words.len() < len {
            self.words.push(0)?;
        }
        Ok(())
    }

    /// Puts a doubleword into the set.
    #[tactic(auto, using(crate::proofs::Ranges::set_step))]
    pub(crate) fn set(&mut self, d: u64) -> Result<(), AllocError>
        ensures { OnOk result ((e : ℕ) → is_marked self.new.words.items e ≡ (d == e || is_marked self.old.words.items e)) }
    {
        let index = (d / BITS) as usize;
        self.grow(index + 1)?;
        let word = self.words[index];
        self.words[index] = word | 1 << (d % BITS);
        Ok(())
    }

    /// Puts the doublewords into the set that a word tells of, by the word's index.
    #[tactic(auto, using(crate::proofs::Ranges::fill_step))]
    fn fill(&mut self, index: usize) -> Result<(), AllocError>
        requires { index < 2 ^ 32 }
        ensures { OnOk result ((e : ℕ) → is_marked self.new.words.items e ≡ (e / 64 == index || is_marked self.old.words.items e)) }
    {
        self.grow(index + 1)?;
        self.words[index] = u64::MAX;
        Ok(())
    }

    /// Puts a doubleword into the set, or all that its word tells of where it is the first of them and
    /// all are below a limit. Answers the doubleword after them.
    #[tactic(auto, using(crate::proofs::Ranges::one_more, crate::proofs::Ranges::word_more))]
    fn step(&mut self, d: u64, limit: u64) -> Result<u64, AllocError>
        requires { (d < limit) × (limit ≤ 2 ^ 32) }
        ensures next { IfOk result (λ next. (d < next) × (next ≤ limit)) }
        ensures marks { IfOk result (λ next. (e : ℕ) → is_marked self.new.words.items e ≡ ((nat_le d e && nat_lt e next) || is_marked self.old.words.items e)) }
    {
        if d % BITS == 0 && d + BITS <= limit {
            self.fill((d / BITS) as usize)?;
            return Ok(d + BITS);
        }
        self.set(d)?;
        Ok(d + 1)
    }

    /// Puts each doubleword into the set of which the range has a byte.
    pub(crate) fn mark(&mut self, span: Span) -> Result<(), AllocError>
        requires { 0 < span.size → span.start + span.size ≤ 2 ^ 32 }
        ensures { OnOk result ((e : ℕ) → is_marked self.new.words.items e ≡ (overlaps (doubleword (8 * e)) span || is_marked self.old.words.items e)) }
    {
        if span.size == 0 {
            return Ok(());
        }
        let limit = (span.start + span.size).div_ceil(DOUBLEWORD);
        let mut d = span.start / DOUBLEWORD;
        while d < limit {
            d = self.step(d, limit)?;
        }
        Ok(())
    }
}
