//! Bytes and words of an image.

ghost use Rattle.std.specs.Prelude.{◌≡◌, ℕ, ◌*◌, ◌%◌, length, IfOk};
ghost use Rattle.link_images.specs.ImageReads.Reads.{byte_within, bytes_within};
ghost use Rattle.seg_image.specs.Accepted.{Accepted};
ghost use Rattle.seg_image.specs.Images.{AreBytes, IsImage};
ghost use Rattle.seg_image.specs.Pages.{IsInside, pages_of};
ghost use Rattle.seg_image.specs.Words.{word_of};

use ld_base::{Bytes, Object};
use seg_image::{Image, index_of, low_of};
use std::alloc::{AllocError, Global};

/// The bytes of a word.
const WORD_SIZE: u64 = 8;

/// The word at an address of the object's own, a multiple of 8 in the memory of a segment.
pub fn word_at(image: &Image, object: &Object, address: u64) -> u64
    requires accepted { Accepted object.now }
    requires inside { IsInside object.now address }
    requires aligned { address % 8 ≡ 0 }
    requires all { length image.now.words ≡ 512 * pages_of object.now }
    ensures { (base : ℕ) (value : ℕ → ℕ) → IsImage object.now base value image.now → result ≡ value address }
{
    image.words.as_slice()[index_of(object, address)].value
}

/// So many bytes from an address of the object's own on: zeros outside its pages.
///
/// # Errors
///
/// Want of memory.
pub fn bytes_of(
    alloc: Global,
    image: &Image,
    object: &Object,
    address: u64,
    count: u64,
) -> Result<Bytes, AllocError>
    requires accepted { Accepted object.now }
    requires all { length image.now.words ≡ 512 * pages_of object.now }
    ensures { IfOk result (λ bytes. (base : ℕ) (byte : ℕ → ℕ) → AreBytes byte → IsImage object.now base (word_of byte) image.now
        → bytes ≡ bytes_within object.now byte address count) }
{
    let mut bytes = Bytes::new(alloc);
    for offset in 0..count {
        bytes.push(byte_at(image, object, address.wrapping_add(offset)))?;
    }
    Ok(bytes)
}

/// The byte at an address of the object's own: 0 outside its pages.
fn byte_at(image: &Image, object: &Object, address: u64) -> u8
    requires accepted { Accepted object.now }
    requires all { length image.now.words ≡ 512 * pages_of object.now }
    ensures { (base : ℕ) (byte : ℕ → ℕ) → AreBytes byte → IsImage object.now base (word_of byte) image.now → result ≡ byte_within object.now byte address }
{
    let low = low_of(object);
    if address < low {
        return 0;
    }
    match image
        .words
        .as_slice()
        .get(((address - low) / WORD_SIZE) as usize)
    {
        Some(word) => word.value.to_le_bytes()[(address % WORD_SIZE) as usize],
        None => 0,
    }
}
