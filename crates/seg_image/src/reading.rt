//! Single words of an object's pages: the file's, and their roles.

ghost use Rattle.std.specs.Prelude.{◌≡◌, ◌%◌, ◌^◌, ◌<◌, IfSome};
ghost use Rattle.std.specs.Option.{option_copied};
ghost use Rattle.seg_image.specs.Accepted.{Accepted};
ghost use Rattle.seg_image.specs.Pages.{segment_at};
ghost use Rattle.seg_image.specs.Roles.{is_linkers, is_slot, role_in, role_of};
ghost use Rattle.seg_image.specs.Words.{file_word};

use crate::making::{is_executable, is_relro, is_writable, segment_word};
use crate::pages::{WORD_SIZE, end_of, start_of};
use ld_base::{Object, Role, Segment};

/// What the doubleword at an own address of the object is used for: none outside its segments' pages.
#[tactic(auto, unfolding(crate::specs::Roles::role_of))]
pub fn role_of(object: &Object, address: u64) -> Role
    requires { Accepted object.now }
    ensures { result ≡ role_of object.now address }
{
    match segment_at(object, address) {
        Some(segment) => role_in(object, segment, address),
        None => Role::None,
    }
}

/// The doubleword that the file gives for an own address of the object, a multiple of 8: zeros where
/// it gives nothing.
pub fn file_word(object: &Object, address: u64) -> u64
    requires accepted { Accepted object.now }
    requires aligned { address % 8 ≡ 0 }
    ensures { result ≡ file_word object.now address }
{
    match segment_at(object, address) {
        Some(segment) => segment_word(segment, address),
        None => 0,
    }
}

/// The segment in whose pages an address lies.
#[tactic(auto, unfolding(crate::specs::Pages::segment_at))]
fn segment_at(object: &Object, address: u64) -> Option<&Segment>
    requires { Accepted object.now }
    ensures segment { option_copied result ≡ segment_at object.now address }
    ensures low { IfSome result (λ segment. address < 2 ^ 63) }
{
    for segment in object.segments.as_slice() {
        if start_of(segment) <= address && address < end_of(segment) {
            return Some(segment);
        }
    }
    None
}

/// What a doubleword of a segment's pages is used for.
fn role_in(object: &Object, segment: &Segment, address: u64) -> Role
    requires { address < 2 ^ 63 }
    ensures { result ≡ role_in object.now address segment.now }
{
    if is_executable(segment) {
        return Role::Rx;
    }
    if !is_writable(segment) {
        return Role::Ro;
    }
    if is_slot(object, address) {
        return Role::Slot;
    }
    if is_linkers(object, address) || is_relro(object, address) {
        Role::Ro
    } else {
        Role::Rw
    }
}

/// Whether a slot stands at an address.
fn is_slot(object: &Object, address: u64) -> bool
    ensures { result ≡ is_slot object.now address }
{
    object
        .plt_relocs
        .as_slice()
        .iter()
        .any(|slot| slot.place == address)
}

/// Whether an address is that of one of the first two words of .got.plt, in an object with slots.
fn is_linkers(object: &Object, address: u64) -> bool
    requires { address < 2 ^ 63 }
    ensures { result ≡ is_linkers object.now address }
{
    !object.plt_relocs.is_empty()
        && object.pltgot.is_some_and(|table| {
            address == table || (address >= WORD_SIZE && address - WORD_SIZE == table)
        })
}
