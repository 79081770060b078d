//! Words with their roles, and images.

ghost use Rattle.std.specs.Prelude.{◌≡◌, ◌==◌, ◌<◌, length};
ghost use Rattle.seg_image.specs.Images.{with_role, with_value};

use crate::pages::{WORD_SIZE, index_of};
use ld_base::{Object, Role, Sequence};
use std::marker::Model;

/// A doubleword of guest memory: its value, and what it may be used for.
#[derive(Clone, Copy, PartialEq, Eq)]
pub struct Word {
    pub value: u64,
    pub role: Role,
}

/// Words, in order of address.
#[derive(Drop)]
pub struct Words {
    items: Vec<Word>,
}

impl Model for Words {
    ghost use Rattle.std.specs.Prelude.{List};
    ghost use Rattle.seg_image.specs.declared.image.Word.{Word};

    ghost Value = { List Word };

    ghost view = { λ s. s.items.items };
}

impl Words {
    /// How many words there are.
    pub fn len(&self) -> usize
        ensures { result ≡ length self.now }
    {
        self.items.len()
    }

    /// Whether there is no word.
    pub fn is_empty(&self) -> bool
        ensures { result ≡ (length self.now == 0) }
    {
        self.items.is_empty()
    }

    /// The words as a slice.
    pub fn as_slice(&self) -> &[Word]
        ensures { result.now ≡ self.now }
    {
        self.items.as_slice()
    }

    /// Sets the value of a word, which keeps its role.
    pub fn set_value(&mut self, index: usize, value: u64)
        requires { index < length self.old }
        ensures { self.new ≡ with_value self.old index value }
    {
        self.items[index].value = value;
    }

    /// Sets the role of a word, which keeps its value.
    pub fn set_role(&mut self, index: usize, role: Role)
        requires { index < length self.old }
        ensures { self.new ≡ with_role self.old index role }
    {
        self.items[index].role = role;
    }
}

impl From<Vec<Word>> for Words {
    ghost from_gives = { λ v s. s ≡ v.items };

    fn from(items: Vec<Word>) -> Self {
        Words { items }
    }
}

/// The words of an object's pages, the first of which lies at `start` in guest memory.
#[derive(Drop)]
pub struct Image {
    pub start: u64,
    pub words: Words,
}

impl Image {
    ghost use Rattle.std.specs.Prelude.{◌≡◌, ℕ, ◌*◌, length};
    ghost use Rattle.seg_image.specs.Accepted.{Accepted, IsPlace};
    ghost use Rattle.seg_image.specs.Images.{AreBytes, IsImage, changed_at};
    ghost use Rattle.seg_image.specs.Pages.{IsInside, pages_of};
    ghost use Rattle.seg_image.specs.Words.{word_of};

    /// The value of the word at a place of the object, which is the image's.
    pub fn value(&self, object: &Object, place: u64) -> u64
        requires accepted { Accepted object.now }
        requires place { IsPlace object.now place }
        requires all { length self.now.words ≡ 512 * pages_of object.now }
        ensures { (base : ℕ) (value : ℕ → ℕ) → IsImage object.now base value self.now → result ≡ value place }
    {
        self.words.as_slice()[index_of(object, place)].value
    }

    /// Sets the value of the word at a place of the object, which is the image's.
    pub fn set_value(&mut self, object: &Object, place: u64, word: u64)
        requires accepted { Accepted object.now }
        requires place { IsPlace object.now place }
        requires all { length self.old.words ≡ 512 * pages_of object.now }
        ensures all { length self.new.words ≡ length self.old.words }
        ensures set { (base : ℕ) (value : ℕ → ℕ) → IsImage object.now base value self.old
            → IsImage object.now base (changed_at value place word) self.new }
    {
        self.words.set_value(index_of(object, place), word);
    }

    /// Sets the byte at an address of the object, which is the image's.
    pub fn set_byte(&mut self, object: &Object, address: u64, byte: u8)
        requires accepted { Accepted object.now }
        requires inside { IsInside object.now address }
        requires all { length self.old.words ≡ 512 * pages_of object.now }
        ensures all { length self.new.words ≡ length self.old.words }
        ensures set { (base : ℕ) (bytes : ℕ → ℕ) → AreBytes bytes → IsImage object.now base (word_of bytes) self.old
            → IsImage object.now base (word_of (changed_at bytes address byte)) self.new }
    {
        let index = index_of(object, address);
        let mut bytes = self.words.as_slice()[index].value.to_le_bytes();
        bytes[(address % WORD_SIZE) as usize] = byte;
        self.words.set_value(index, u64::from_le_bytes(bytes));
    }
}

/// Images, in order.
pub type Images = Sequence<Image>;
