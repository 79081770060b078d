//! Which of an object's indexes of versions have a name.

ghost use Rattle.std.specs.Prelude.{◌≡◌, ◌==◌, ◌&&◌, ◌<◌, ℕ, not, false, if◌then◌else◌, option_map};
ghost use Rattle.std.specs.Int.{bit_at};
ghost use Rattle.std.specs.Option.{option_map_or};
ghost use Rattle.ld_base.specs.Marks.{is_marked};
ghost use Rattle.ld_base.specs.Pick.{carries, is_named};
ghost use Rattle.std.specs.Str.{bytes_eq};
ghost use Rattle.ld_base.specs.Version.{is_base, verdef_of, verneed_of};

use crate::{Object, Verdef, Verneed};
use std::marker::Model;

/// How many indexes a word tells of.
const BITS: u16 = 64;
/// How many words tell of all indexes: those without the bit that hides a definition.
const WORDS: usize = 512;

/// The indexes of versions that have one name, a bit for each: found once, in one step for each
/// version, so that each symbol is asked in one step. They take no memory of the heap.
#[derive(Drop)]
pub struct Carriers {
    words: [u64; WORDS],
}

impl Model for Carriers {
    ghost use Rattle.std.specs.Prelude.{List, ℕ};

    ghost Value = { List ℕ };

    ghost view = { λ c. c.words };
}

/// The word with a bit set or cleared.
#[tactic(auto, using(crate::proofs::Bits::set_bit, crate::proofs::Bits::cleared_bit))]
fn with_bit(word: u64, bit: u16, has: bool) -> u64
    requires { bit < 64 }
    ensures { (k : ℕ) → k < 64 → bit_at result k ≡ (if bit == k then (if has then 1 else 0) else bit_at word k) }
{
    if has {
        word | 1 << bit
    } else {
        word & !(1 << bit)
    }
}

impl Carriers {
    /// The indexes whose version in the object has this name.
    pub fn new(object: &Object, version: &[u8]) -> Self
        ensures { (index : ℕ) → index < 0x8000 → is_marked result index ≡ carries object.now version.now index }
    {
        let mut carriers = Carriers::none();
        carriers.mark_needed(object.verneeds.as_slice(), version);
        carriers.mark_defined(object.verdefs.as_slice(), version);
        carriers
    }

    /// No index.
    fn none() -> Self
        ensures { (k : ℕ) → k < 0x8000 → is_marked result k ≡ false }
    {
        Carriers { words: [0; WORDS] }
    }

    /// Whether the version of an index has the name.
    #[tactic(auto, unfolding(crate::specs::Marks::is_marked))]
    pub fn has(&self, index: u16) -> bool
        requires { index < 0x8000 }
        ensures { result ≡ is_marked self.now index }
    {
        (self.words[usize::from(index / BITS)] >> (index % BITS)) % 2 == 1
    }

    /// Says whether an index has the name.
    fn set(&mut self, index: u16, has: bool)
        ensures { (k : ℕ) → k < 0x8000 → is_marked self.new k ≡ (if index == k then has else is_marked self.old k) }
    {
        let at = usize::from(index / BITS);
        if at < WORDS {
            self.words[at] = with_bit(self.words[at], index % BITS, has);
        }
    }

    /// Marks the indexes of needed versions. The first of an index counts, so the last comes first.
    fn mark_needed(&mut self, verneeds: &[Verneed], version: &[u8])
        requires { (k : ℕ) → k < 0x8000 → is_marked self.old k ≡ false }
        ensures { (k : ℕ) → k < 0x8000 → is_marked self.new k ≡ is_named version.now (option_map (λ n. n.name) (verneed_of verneeds.now k)) }
    {
        for passed in 0..verneeds.len() {
            let verneed = &verneeds[verneeds.len() - 1 - passed];
            self.set(verneed.index, verneed.name.is(version));
        }
    }

    /// Marks the indexes of defined versions, which count before needed ones.
    fn mark_defined(&mut self, verdefs: &[Verdef], version: &[u8])
        ensures { (k : ℕ) → k < 0x8000 → is_marked self.new k
            ≡ option_map_or (λ d. bytes_eq d.name version.now) (verdef_of verdefs.now k) (is_marked self.old k) }
    {
        for passed in 0..verdefs.len() {
            let verdef = &verdefs[verdefs.len() - 1 - passed];
            self.mark_one(verdef, version);
        }
    }

    /// Marks the index of a defined version. That of the object itself has no name.
    fn mark_one(&mut self, verdef: &Verdef, version: &[u8])
        ensures { (k : ℕ) → k < 0x8000 → is_marked self.new k
            ≡ (if verdef.now.index == k && not (is_base verdef.now) then bytes_eq verdef.now.name version.now else is_marked self.old k) }
    {
        if !verdef.is_base() {
            self.set(verdef.index, verdef.name.is(version));
        }
    }
}
