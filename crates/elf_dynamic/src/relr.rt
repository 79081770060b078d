//! Packed relative relocations (gABI, "Relocation": DT_RELR).

ghost use Rattle.std.specs.Prelude.{◌≡◌, ◌==◌, ◌+◌, ◌-◌, ◌*◌, ◌%◌, ◌<◌, ◌≤◌, ◌^◌, ◌++◌, [], ◌∷◌};
ghost use Rattle.std.specs.Prelude.{◌||◌, ◌/◌, true, false, List, ℕ, length, map, nat_lt, IfOk, OnOk, IsTrue, MatchResult};
ghost use Rattle.std.specs.Prelude.{if◌then◌else◌};
ghost use Rattle.std.specs.List.{list_any};
ghost use Rattle.ld_base.specs.declared.object.Span.{Span};
ghost use Rattle.elf_dynamic.specs.Judged.{most_places, packed_broken, AdmitsMore, FaultIs, IsJudged};
ghost use Rattle.elf_dynamic.specs.Marks.{AreMarks};
ghost use Rattle.elf_dynamic.specs.Memory.{overlaps, AreLow};
ghost use Rattle.elf_dynamic.specs.Named.{doubleword};
ghost use Rattle.elf_dynamic.specs.Relr.{after_word, begins_odd, bits_of, has_bit, relr_places, relr_words, word_places};
ghost use Rattle.elf_dynamic.specs.Rules.{is_bad_place};

use crate::marks::Marks;
use crate::memory::in_writable;
use crate::reader::broken;
use crate::reloc_rules::{DOUBLEWORD, is_bad_place};
use ld_base::{Header, Places, ReadFault, Span, field64};
use std::alloc::AllocError;

/// The bytes of one word.
const WORD_SIZE: usize = 8;
/// The bytes of the places that the bits of a word may name, a doubleword for each bit from 1 to 63.
const BITS_REACH: u64 = 63 * 8;

/// As many places as are kept: as many doublewords as a file of 8 MiB has, and as guest memory has.
pub(crate) const MOST_PLACES: usize = 1 << 20;

/// What is known of relocations, none of which is bad.
#[derive(Drop)]
pub(crate) struct Judged {
    /// The doublewords of which they name bytes.
    pub(crate) named: Marks,
    /// The places of the first packed ones.
    pub(crate) places: Places,
    /// How many packed ones there are.
    pub(crate) count: u64,
}

impl Judged {
    /// Takes a packed relocation more, unless it is bad: its place, unless that is sure to be one of
    /// a doubleword, or a byte that one before it names.
    #[tactic(auto, using(crate::proofs::Ranges::low_place))]
    fn admit(&mut self, headers: &[Header], place: u64, sure: bool) -> Result<bool, AllocError>
        requires few { self.old.count < 2 ^ 63 }
        requires sure { sure ≡ true → is_bad_place headers.now place ≡ false }
        requires low { AreLow headers.now }
        ensures kept { IfOk result (λ kept. AdmitsMore headers.now (place ∷ []) self.old kept self.new) }
        ensures few { IfOk result (λ kept. self.new.count ≤ self.old.count + 1) }
        ensures low { IfOk result (λ kept. IsTrue kept → place + 8 ≤ 2 ^ 32) }
    {
        if self.refuses(headers, place, sure) {
            return Ok(false);
        }
        self.named.set(place / DOUBLEWORD)?;
        list(&mut self.places, place)?;
        self.count += 1;
        Ok(true)
    }

    /// Whether the place is bad by itself, or its doubleword is named.
    fn refuses(&self, headers: &[Header], place: u64, sure: bool) -> bool
        requires { sure ≡ true → is_bad_place headers.now place ≡ false }
        ensures good { result ≡ false → is_bad_place headers.now place ≡ false }
        ensures tells { (ranges : List Span) → AreMarks self.now.named.words.items ranges
            → result ≡ (is_bad_place headers.now place || list_any (overlaps (doubleword place)) ranges) }
    {
        (!sure && is_bad_place(headers, place)) || self.named.has(place / DOUBLEWORD)
    }

    /// Takes the packed relocation that a bit of a word stands for, if the word has it.
    fn admit_bit(
        &mut self,
        headers: &[Header],
        word: u64,
        next: u64,
        bit: u32,
        sure: bool,
    ) -> Result<bool, AllocError>
        requires bit { (1 ≤ bit) × (bit < 64) }
        requires next { next < 2 ^ 63 }
        requires few { self.old.count < 2 ^ 63 }
        requires sure { sure ≡ true → is_bad_place headers.now (next + 8 * (bit - 1)) ≡ false }
        requires low { AreLow headers.now }
        ensures kept { IfOk result
            (λ kept. AdmitsMore headers.now (if has_bit word bit then (next + 8 * (bit - 1)) ∷ [] else []) self.old kept self.new) }
        ensures few { IfOk result (λ kept. self.new.count ≤ self.old.count + 1) }
    {
        if (word >> bit) % 2 == 1 {
            self.admit(headers, next + DOUBLEWORD * u64::from(bit - 1), sure)
        } else {
            Ok(true)
        }
    }

    /// Takes the packed relocations that the bits of a word stand for, up to the first that is bad.
    fn admit_bits(&mut self, headers: &[Header], word: u64, next: u64) -> Result<bool, AllocError>
        requires next { next < 2 ^ 62 }
        requires few { self.old.count < 2 ^ 62 }
        requires low { AreLow headers.now }
        ensures kept { IfOk result (λ kept. AdmitsMore headers.now (map (λ i. next + 8 * (i - 1)) (bits_of word)) self.old kept self.new) }
        ensures few { IfOk result (λ kept. self.new.count ≤ self.old.count + 64) }
    {
        let sure = is_sure(headers, next);
        for bit in 1..u64::BITS {
            let kept = self.admit_bit(headers, word, next, bit, sure)?;
            if !kept {
                return Ok(false);
            }
        }
        Ok(true)
    }

    /// Takes the packed relocations that a word stands for, up to the first that is bad.
    fn admit_word(&mut self, headers: &[Header], word: u64, next: u64) -> Result<bool, AllocError>
        requires next { next < 2 ^ 62 }
        requires few { self.old.count < 2 ^ 62 }
        requires low { AreLow headers.now }
        ensures kept { IfOk result (λ kept. AdmitsMore headers.now (word_places next word) self.old kept self.new) }
        ensures few { IfOk result (λ kept. self.new.count ≤ self.old.count + 64) }
        ensures low { IfOk result (λ kept. IsTrue kept → word % 2 ≡ 0 → word + 8 ≤ 2 ^ 32) }
    {
        if word % 2 == 0 {
            self.admit(headers, word, false)
        } else {
            self.admit_bits(headers, word, next)
        }
    }
}

/// Puts a place at the end, unless there are as many as are kept.
#[tactic(auto, unfolding(crate::specs::Judged::most_places))]
fn list(places: &mut Places, place: u64) -> Result<(), AllocError>
    ensures { OnOk result (places.new ≡ (if nat_lt (length places.old) most_places then places.old ++ place ∷ [] else places.old)) }
{
    if places.len() < MOST_PLACES {
        places.push(place)?;
    }
    Ok(())
}

/// Whether all places that the bits of a word may name, from this one on, are those of doublewords.
#[tactic(auto, using(crate::proofs::Ranges::sure_place))]
fn is_sure(headers: &[Header], next: u64) -> bool
    requires { next < 2 ^ 62 }
    ensures { result ≡ true → (bit : ℕ) → 1 ≤ bit → bit < 64 → is_bad_place headers.now (next + 8 * (bit - 1)) ≡ false }
{
    let reach = Span {
        start: next,
        size: BITS_REACH,
    };
    next % DOUBLEWORD == 0 && in_writable(headers, reach)
}

/// Judges the packed relocations that the words of a table stand for, after so many others of which
/// none is bad (rule 14).
pub(crate) fn judge_packed(
    headers: &[Header],
    packed: &[u8],
    mut judged: Judged,
    others: u64,
) -> Result<Judged, ReadFault>
    requires short { length packed.now ≤ 8_388_608 }
    requires others { others < 2 ^ 32 }
    requires count { judged.count ≡ 0 }
    requires low { AreLow headers.now }
    ensures { (ranges : List Span) → IsJudged headers.now ranges [] judged → MatchResult result
        (λ all. (begins_odd (relr_words packed.now) ≡ false) × IsJudged headers.now ranges (relr_places packed.now) all)
        (λ fault. FaultIs (packed_broken headers.now ranges packed.now others) fault) }
{
    if begins_odd(packed) {
        return Err(broken(14, others));
    }
    let mut next = 0;
    for index in 0..packed.len() / WORD_SIZE {
        let word = field64(packed, WORD_SIZE * index);
        let kept = judged.admit_word(headers, word, next)?;
        if !kept {
            return Err(broken(14, others + judged.count));
        }
        next = next_after(word, next);
    }
    Ok(judged)
}

/// The place from which the bits of the word after this one count.
fn next_after(word: u64, next: u64) -> u64
    requires word { word % 2 ≡ 0 → word < 2 ^ 63 }
    requires next { next < 2 ^ 63 }
    ensures { result ≡ after_word next word }
{
    if word % 2 == 0 {
        word + 8
    } else {
        next + BITS_REACH
    }
}

/// Whether the first word names places by its bits, which count from no place.
#[tactic(auto, using(crate::proofs::Packed::first_word))]
fn begins_odd(bytes: &[u8]) -> bool
    ensures { result ≡ begins_odd (relr_words bytes.now) }
{
    bytes.len() >= WORD_SIZE && field64(bytes, 0) % 2 == 1
}
