//! Words of an object by its own addresses.

ghost use Rattle.std.specs.Prelude.{◌≡◌, ◌<◌, ◌^◌, ◌&&◌};
ghost use Rattle.std.specs.Option.{option_copied};
ghost use Rattle.history_state.specs.Addresses.{is_rx};
ghost use Rattle.relocator.specs.Relocated.{moved_word};
ghost use Rattle.seg_image.specs.Accepted.{Accepted, IsSegment};
ghost use Rattle.seg_image.specs.Pages.{has_page, segment_at};
ghost use Rattle.seg_image.specs.Roles.{is_executable, role_of};
ghost use Rattle.seg_image.specs.Words.{byte_in, file_byte, file_word};

use ld_base::{Object, Segment};

/// The bytes of a page.
const PAGE_SIZE: u64 = 4096;

/// Whether the doubleword at an address may be run.
pub fn is_code(object: &Object, address: u64) -> bool
    requires { Accepted object.now }
    ensures { result ≡ is_rx (role_of object.now address) }
{
    match segment_at(object, address) {
        Some(segment) => is_executable(segment),
        None => false,
    }
}

/// The word that the file has at an address, moved with the object to its base.
#[tactic(auto, unfolding(relocator::specs::Relocated::moved_word))]
pub fn moved_word(object: &Object, base: u64, address: u64) -> u64
    requires accepted { Accepted object.now }
    requires low { address < 2 ^ 63 }
    ensures { result ≡ moved_word object.now base address }
{
    file_word(object, address).wrapping_add(base)
}

/// The word that the file has at an address.
fn file_word(object: &Object, address: u64) -> u64
    requires accepted { Accepted object.now }
    requires low { address < 2 ^ 63 }
    ensures { result ≡ file_word object.now address }
{
    let mut bytes = [0; 8];
    for (offset, byte) in bytes.iter_mut().enumerate() {
        *byte = file_byte(object, address + offset as u64);
    }
    u64::from_le_bytes(bytes)
}

/// The byte that the file has at an address: 0 where it has none.
#[tactic(auto, unfolding(seg_image::specs::Words::file_byte))]
fn file_byte(object: &Object, address: u64) -> u8
    requires { Accepted object.now }
    ensures { result ≡ file_byte object.now address }
{
    match segment_at(object, address) {
        Some(segment) => segment_byte(segment, address),
        None => 0,
    }
}

/// The byte that the file has at an address of a segment's pages.
fn segment_byte(segment: &Segment, address: u64) -> u8
    ensures { result ≡ byte_in segment.now address }
{
    if address < segment.vaddr {
        return 0;
    }
    let offset = (address - segment.vaddr) as usize;
    segment.bytes.as_slice().get(offset).copied().unwrap_or(0)
}

/// The segment in whose pages an address lies.
#[tactic(auto, unfolding(seg_image::specs::Pages::segment_at))]
fn segment_at(object: &Object, address: u64) -> Option<&Segment>
    requires { Accepted object.now }
    ensures { option_copied result ≡ segment_at object.now address }
{
    for segment in object.segments.as_slice() {
        if has_page(segment, address) {
            return Some(segment);
        }
    }
    None
}

/// Whether an address lies in a page of a segment.
fn has_page(segment: &Segment, address: u64) -> bool
    requires { IsSegment segment.now }
    ensures { result ≡ has_page address segment.now }
{
    let start = segment.vaddr / PAGE_SIZE * PAGE_SIZE;
    let end = (segment.vaddr + segment.memsz + (PAGE_SIZE - 1)) / PAGE_SIZE * PAGE_SIZE;
    start <= address && address < end
}

/// Whether the segment's bytes may be run (PF_X).
fn is_executable(segment: &Segment) -> bool
    ensures { result ≡ is_executable segment.now }
{
    segment.flags % 2 == 1
}
