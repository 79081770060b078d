//! The words of an object's pages before their relocation.

ghost use Rattle.std.specs.Prelude.{◌≡◌, ℕ, ◌+◌, ◌*◌, ◌%◌, ◌^◌, ◌<◌, nat_le, length, Some, None, IfOk, OnOk, vec_len, if◌then◌else◌};
ghost use Rattle.seg_image.specs.Accepted.{Accepted, IsSegment};
ghost use Rattle.seg_image.specs.Images.{AreWords, IsImage};
ghost use Rattle.seg_image.specs.Pages.{IsPlaced, end_of, low_of, pages_of, segment_at, start_of};
ghost use Rattle.seg_image.specs.Plain.{IsNext, linkers_marked, plain_in, plain_word, slots_marked};
ghost use Rattle.seg_image.specs.Roles.{is_executable, is_relro, is_writable};
ghost use Rattle.seg_image.specs.Words.{byte_in, file_word, word_of};
ghost use Rattle.seg_image.specs.declared.image.Word.{Word};

use crate::pages::{WORD_SIZE, end_of, index_of, low_of, pages_of, start_of};
use crate::{Image, Word, Words};
use ld_base::{Object, Role, Segment};
use std::alloc::{AllocError, Global};

/// The image of an object at a base before its relocation: the file's bytes, zeros elsewhere, and
/// the role of each doubleword.
///
/// # Errors
///
/// Want of memory.
pub fn make_image(alloc: Global, object: &Object, base: u64) -> Result<Image, AllocError>
    requires accepted { Accepted object.now }
    requires placed { IsPlaced object.now base }
    ensures { IfOk result (IsImage object.now base (file_word object.now)) }
{
    let mut words = plain_words(alloc, object)?;
    mark_linkers(&mut words, object);
    mark_slots(&mut words, object);
    Ok(Image {
        start: base.wrapping_add(low_of(object)),
        words,
    })
}

/// The words of all pages, in one pass over the segments.
fn plain_words(alloc: Global, object: &Object) -> Result<Words, AllocError>
    requires { Accepted object.now }
    ensures all { IfOk result (λ words. length words ≡ 512 * pages_of object.now) }
    ensures plain { IfOk result (AreWords (low_of object.now) (plain_word object.now)) }
{
    let mut words = Vec::with_capacity(alloc, pages_of(object) as usize * 512)?;
    for segment in object.segments.as_slice() {
        push_words(&mut words, object, segment)?;
    }
    Ok(Words::from(words))
}

/// Puts the words up to a segment's end behind those of the pages before them.
fn push_words(words: &mut Vec<Word>, object: &Object, segment: &Segment) -> Result<(), AllocError>
    requires accepted { Accepted object.now }
    requires segment { IsSegment segment.now }
    requires next { IsNext object.now segment.now (vec_len words.old) }
    requires plain { AreWords (low_of object.now) (plain_word object.now) words.old.items }
    ensures plain { OnOk result (AreWords (low_of object.now) (plain_word object.now) words.new.items) }
    ensures end { OnOk result (low_of object.now + 8 * vec_len words.new ≡ end_of segment.now) }
{
    let low = low_of(object);
    let count = ((end_of(segment) - low) / WORD_SIZE) as usize;
    for index in words.len()..count {
        words.push(plain_word(object, segment, low + WORD_SIZE * index as u64))?;
    }
    Ok(())
}

/// The word at an address that lies in a segment's pages, or below them in no segment's.
fn plain_word(object: &Object, segment: &Segment, address: u64) -> Word
    requires aligned { address % 8 ≡ 0 }
    requires segment { IsSegment segment.now }
    requires below { address < end_of segment.now }
    requires here { segment_at object.now address ≡ (if nat_le (start_of segment.now) address then Some segment.now else None) }
    ensures { result ≡ plain_word object.now address }
{
    if address < start_of(segment) {
        return Word {
            value: 0,
            role: Role::None,
        };
    }
    Word {
        value: segment_word(segment, address),
        role: segment_role(object, segment, address),
    }
}

/// The word that the file gives for an address of a segment's pages.
pub(crate) fn segment_word(segment: &Segment, address: u64) -> u64
    requires { address < 2 ^ 63 }
    ensures { result ≡ word_of (byte_in segment.now) address }
{
    let mut bytes = [0; 8];
    for (offset, byte) in bytes.iter_mut().enumerate() {
        *byte = file_byte(segment, address + offset as u64);
    }
    u64::from_le_bytes(bytes)
}

/// The byte that the file gives for an address of a segment's pages.
fn file_byte(segment: &Segment, address: u64) -> u8
    ensures { result ≡ byte_in segment.now address }
{
    if address < segment.vaddr {
        return 0;
    }
    let offset = (address - segment.vaddr) as usize;
    segment.bytes.as_slice().get(offset).copied().unwrap_or(0)
}

/// The role of a doubleword of a segment's pages that is neither a slot's nor the linker's.
fn segment_role(object: &Object, segment: &Segment, address: u64) -> Role
    requires { address < 2 ^ 63 }
    ensures { result ≡ plain_in object.now address segment.now }
{
    if is_executable(segment) {
        return Role::Rx;
    }
    if is_writable(segment) && !is_relro(object, address) {
        Role::Rw
    } else {
        Role::Ro
    }
}

/// Whether the segment's bytes may be run (PF_X).
pub(crate) fn is_executable(segment: &Segment) -> bool
    ensures { result ≡ is_executable segment.now }
{
    segment.flags % 2 == 1
}

/// Whether the segment's bytes may be written (PF_W).
pub(crate) fn is_writable(segment: &Segment) -> bool
    ensures { result ≡ is_writable segment.now }
{
    segment.flags / 2 % 2 == 1
}

/// Whether a doubleword lies wholly inside the range that is read-only once it is relocated.
pub(crate) fn is_relro(object: &Object, address: u64) -> bool
    requires { address < 2 ^ 63 }
    ensures { result ≡ is_relro object.now address }
{
    object.relro.is_some_and(|relro| {
        relro.start <= address && address - relro.start + WORD_SIZE <= relro.size
    })
}

/// Marks the first two words of .got.plt, in an object with slots.
fn mark_linkers(words: &mut Words, object: &Object)
    requires accepted { Accepted object.now }
    requires all { length words.old ≡ 512 * pages_of object.now }
    ensures all { length words.new ≡ length words.old }
    ensures marked { (word : ℕ → Word) → AreWords (low_of object.now) word words.old
        → AreWords (low_of object.now) (linkers_marked object.now word) words.new }
{
    if object.plt_relocs.is_empty() {
        return;
    }
    if let Some(table) = object.pltgot {
        words.set_role(index_of(object, table), Role::Ro);
        words.set_role(index_of(object, table + WORD_SIZE), Role::Ro);
    }
}

/// Marks the doubleword of each slot.
fn mark_slots(words: &mut Words, object: &Object)
    requires accepted { Accepted object.now }
    requires all { length words.old ≡ 512 * pages_of object.now }
    ensures all { length words.new ≡ length words.old }
    ensures marked { (word : ℕ → Word) → AreWords (low_of object.now) word words.old
        → AreWords (low_of object.now) (slots_marked object.now word) words.new }
{
    for slot in object.plt_relocs.as_slice() {
        words.set_role(index_of(object, slot.place), Role::Slot);
    }
}
