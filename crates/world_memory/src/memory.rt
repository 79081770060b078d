//! Doublewords side by side.

ghost use Rattle.std.specs.Prelude.{◌≡◌, ℕ, ◌+◌, ◌-◌, ◌/◌, ◌<◌, ◌≤◌, List, ◌++◌, length, IfOk, slice_index_or, slice_set};
ghost use Rattle.std.specs.Vec.{vec_capacity, vec_len};
ghost use Rattle.hart_seat.specs.HartParts.Views.{offered_of};
ghost use Rattle.world_memory.specs.Front.{front_count, nowheres, spread};
ghost use Rattle.rv_hart.specs.Doublewords.{nowhere, with_word_at, word_at};
ghost use Rattle.rv_hart.specs.declared.doubleword.Doubleword.{Doubleword};
ghost use Rattle.world_turns.specs.Memory.{AreFresh, doubleword, exchanged, lowest, word_count};

use hart_seat::Offered;
use ld_base::Role;
use rv_hart::Doubleword;
use std::alloc::{AllocError, Global};
use std::marker::Model;

/// The lowest address of guest memory.
const LOWEST: u64 = 0x1_0000;

/// How many doublewords a page has, and how many pages guest memory.
pub(crate) const PAGE_WORDS: u64 = 512;

pub(crate) const PAGE_COUNT: u64 = 2048;

/// How many doublewords lie in front of the linker's own page, which is the last one.
const FRONT_COUNT: usize = 0xf_fe00;

/// What each doubleword of the linker's own page holds: two ebreaks.
const LINKER_WORD: Doubleword = Doubleword {
    value: 0x0010_0073_0010_0073,
    role: Role::Rx,
    version: 0,
};

/// Guest memory that one thread has: its doublewords, in the order of their addresses, from 0x10000 up to
/// 0x810000.
///
/// An address outside finds a doubleword without a role, and nothing is put there. Memory that holds nothing
/// yet costs nothing but address space.
#[derive(Drop)]
pub struct PlainMemory {
    /// Those in front of the linker's own page, up to the last that was put there. There is room for each.
    front: Vec<Doubleword>,
    /// Those of the linker's own page.
    page: Vec<Doubleword>,
}

impl Model for PlainMemory {
    ghost use Rattle.std.specs.Prelude.{List};
    ghost use Rattle.rv_hart.specs.declared.doubleword.Doubleword.{Doubleword};

    ghost Value = { List Doubleword };

    ghost use Rattle.world_memory.specs.Inside.{IsKept, words_of};

    ghost view = { words_of };

    ghost invariant = { IsKept };
}

impl PlainMemory {
    /// Guest memory before startup: the linker's own page is there, and nothing else.
    ///
    /// # Errors
    ///
    /// Want of memory.
    pub fn new(alloc: Global) -> Result<Self, AllocError>
        ensures { IfOk result AreFresh }
    {
        let front = Vec::with_capacity(alloc, FRONT_COUNT)?;
        let page = words_like(alloc, LINKER_WORD, PAGE_WORDS as usize)?;
        Ok(PlainMemory { front, page })
    }

    /// The doubleword that an address lies in.
    pub(crate) fn word(&self, address: u64) -> Doubleword
        ensures { result ≡ word_at lowest self.now address }
    {
        let index = index_of(address);
        if index < self.front.len() {
            self.front[index]
        } else if index < FRONT_COUNT {
            Doubleword::NOWHERE
        } else if index - FRONT_COUNT < self.page.len() {
            self.page[index - FRONT_COUNT]
        } else {
            Doubleword::NOWHERE
        }
    }

    /// Puts a doubleword there, in place of the one that the address lies in.
    pub(crate) fn put(&mut self, address: u64, word: Doubleword)
        ensures put { self.new ≡ with_word_at lowest self.old address word }
        ensures whole { length self.old ≡ word_count }
    {
        let index = index_of(address);
        if index < self.front.len() {
            self.front[index] = word;
        } else if index < FRONT_COUNT {
            put_behind(&mut self.front, index, word);
        } else if index - FRONT_COUNT < self.page.len() {
            self.page[index - FRONT_COUNT] = word;
        }
    }

    /// The exchange of a granted slot: its value is put there where the slot holds the lazy word. Answers
    /// the word that it found.
    pub fn exchange(&mut self, offered: Offered) -> u64
        ensures found { result ≡ (doubleword self.old offered.slot).value }
        ensures left { self.new ≡ exchanged (offered_of offered) self.old }
    {
        let mut word = self.word(offered.slot);
        let found = word.value;
        if found == offered.lazy {
            word.value = offered.value;
            self.put(offered.slot, word);
        }
        found
    }
}

/// Puts a doubleword behind those in front of the linker's own page that there are, at an index. Nothing is put
/// where it is one without a role, which is there already.
fn put_behind(front: &mut Vec<Doubleword>, index: usize, word: Doubleword)
    requires behind { vec_len front.old ≤ index }
    requires inside { index < front_count }
    requires room { front_count ≤ vec_capacity front.old }
    ensures put { (page : List Doubleword) → spread front.new.items page ≡ slice_set (spread front.old.items page) index word }
    ensures few { vec_len front.new ≤ front_count }
    ensures room { vec_capacity front.new ≡ vec_capacity front.old }
{
    if word != Doubleword::NOWHERE {
        extend(front, index - front.len());
        front.push_reserved(word);
    }
}

/// So many doublewords more, without a role.
fn extend(front: &mut Vec<Doubleword>, count: usize)
    requires { vec_len front.old + count ≤ vec_capacity front.old }
    ensures items { front.new.items ≡ front.old.items ++ nowheres count }
    ensures len { vec_len front.new ≡ vec_len front.old + count }
    ensures room { vec_capacity front.new ≡ vec_capacity front.old }
{
    for _more in 0..count {
        front.push_reserved(Doubleword::NOWHERE);
    }
}

/// So many doublewords like this one.
fn words_like(alloc: Global, word: Doubleword, count: usize) -> Result<Vec<Doubleword>, AllocError>
    ensures len { IfOk result (λ words. vec_len words ≡ count) }
    ensures each { IfOk result (λ words. (k : ℕ) → k < count → slice_index_or words.items k nowhere ≡ word) }
{
    vec![in alloc; word; count]
}

/// Where the doubleword that an address lies in stands, counted from the lowest. Below that one it is nowhere.
fn index_of(address: u64) -> usize
    ensures above { lowest ≤ address → result ≡ (address - lowest) / 8 }
    ensures below { address < lowest → word_count ≤ result }
{
    (address.wrapping_sub(LOWEST) / 8) as usize
}
