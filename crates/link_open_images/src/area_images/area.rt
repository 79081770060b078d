//! Pages of data.

ghost use Rattle.std.specs.Prelude.{◌≡◌, ◌+◌, ◌*◌, ◌^◌, ◌<◌, ◌≤◌, IfOk};
ghost use Rattle.link_open_images.specs.AreaImages.Areas.{IsArea, byte_among};
ghost use Rattle.seg_image.specs.Words.{word_of};

use ld_base::Role;
use seg_image::{Image, Word, Words};
use std::alloc::{AllocError, Global};

/// The words of a page.
const PAGE_WORDS: u64 = 512;

/// The bytes of a word.
const WORD_SIZE: u64 = 8;

/// The image of so many pages from an address on, where these bytes stand from `at` on, and zeros before
/// and behind them.
///
/// # Errors
///
/// Want of memory.
pub fn area_image(
    alloc: Global,
    address: u64,
    pages: u64,
    at: u64,
    bytes: &[u8],
) -> Result<Image, AllocError>
    requires low { address + 4096 * pages ≤ 2 ^ 32 }
    ensures { IfOk result (IsArea address pages at bytes.now) }
{
    let mut words = Vec::new(alloc);
    for index in 0..PAGE_WORDS * pages {
        words.push(Word {
            value: word_at(address + WORD_SIZE * index, at, bytes),
            role: Role::Rw,
        })?;
    }
    Ok(Image {
        start: address,
        words: Words::from(words),
    })
}

/// The word at an address.
fn word_at(address: u64, at: u64, bytes: &[u8]) -> u64
    requires { address < 2 ^ 63 }
    ensures { result ≡ word_of (byte_among at bytes.now) address }
{
    let mut word = [0; 8];
    for (offset, byte) in word.iter_mut().enumerate() {
        *byte = byte_at(address + offset as u64, at, bytes);
    }
    u64::from_le_bytes(word)
}

/// The byte at an address.
#[tactic(auto, unfolding(crate::specs::AreaImages::Areas::byte_among))]
fn byte_at(address: u64, at: u64, bytes: &[u8]) -> u8
    ensures { result ≡ byte_among at bytes.now address }
{
    if address < at {
        return 0;
    }
    bytes.get((address - at) as usize).copied().unwrap_or(0)
}
