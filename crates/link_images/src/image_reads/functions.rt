//! The functions of an object.

ghost use Rattle.std.specs.Prelude.{◌≡◌, ℕ, ◌+◌, ◌*◌, ◌%◌, ◌^◌, ◌<◌, ◌≤◌, ◌++◌, length, Some, IfOk};
ghost use Rattle.std.specs.Vec.{vec_capacity, vec_len};
ghost use Rattle.ld_base.specs.declared.object.Span.{Span};
ghost use Rattle.link_images.specs.ImageReads.Reads.{IsImageOf, constructors_in, entries_in, entry_at, preinits_in, single_in, words_at, words_of};
ghost use Rattle.history_state.specs.Accepted.{IsAccepted, IsArray};
ghost use Rattle.history_state.specs.State.{Linked};
ghost use Rattle.history_calls.specs.Functions.{constructors, destructors, preinits};
ghost use Rattle.seg_image.specs.Accepted.{Accepted};
ghost use Rattle.seg_image.specs.Images.{IsImage};
ghost use Rattle.seg_image.specs.Pages.{IsInside, pages_of};

use crate::image_reads::bytes::word_at;
use history_event::Addresses;
use ld_base::{Object, Span};
use seg_image::Image;
use std::alloc::{AllocError, Global};

/// The bytes of an entry.
const WORD_SIZE: u64 = 8;

/// How many constructors an object has.
pub fn constructor_count(object: &Object) -> usize
    ensures { result ≡ constructors_in object.now }
{
    single_count(object.init) + entry_count(object.init_array)
}

/// How many entries DT_PREINIT_ARRAY has, which the program alone has.
pub fn preinit_count(object: &Object) -> usize
    ensures { result ≡ preinits_in object.now }
{
    entry_count(object.preinit)
}

/// Puts DT_INIT, and then the entries of DT_INIT_ARRAY, at the end, where there is room for them.
pub fn push_constructors(addresses: &mut Vec<u64>, image: &Image, object: &Object, base: u64)
    requires accepted { IsAccepted object.now }
    requires all { length image.now.words ≡ 512 * pages_of object.now }
    requires room { vec_len addresses.old + constructors_in object.now ≤ vec_capacity addresses.old }
    ensures addresses { (m : Linked) → IsImageOf m object.now base image.now → addresses.new.items ≡ addresses.old.items ++ constructors m }
    ensures count { vec_len addresses.new ≡ vec_len addresses.old + constructors_in object.now }
    ensures capacity { vec_capacity addresses.new ≡ vec_capacity addresses.old }
{
    push_single(addresses, base, object.init);
    push_entries(addresses, image, object, object.init_array);
}

/// Puts the entries of DT_PREINIT_ARRAY at the end, where there is room for them.
pub fn push_preinits(addresses: &mut Vec<u64>, image: &Image, object: &Object, base: u64)
    requires accepted { IsAccepted object.now }
    requires all { length image.now.words ≡ 512 * pages_of object.now }
    requires room { vec_len addresses.old + preinits_in object.now ≤ vec_capacity addresses.old }
    ensures addresses { (m : Linked) → IsImageOf m object.now base image.now → addresses.new.items ≡ addresses.old.items ++ preinits m }
    ensures count { vec_len addresses.new ≡ vec_len addresses.old + preinits_in object.now }
    ensures capacity { vec_capacity addresses.new ≡ vec_capacity addresses.old }
{
    push_entries(addresses, image, object, object.preinit);
}

/// The entries of DT_FINI_ARRAY, the last one first, and then DT_FINI.
///
/// # Errors
///
/// Want of memory.
pub fn destructors(
    alloc: Global,
    image: &Image,
    object: &Object,
    base: u64,
) -> Result<Addresses, AllocError>
    requires accepted { IsAccepted object.now }
    requires all { length image.now.words ≡ 512 * pages_of object.now }
    ensures { IfOk result (λ addresses. (m : Linked) → IsImageOf m object.now base image.now → addresses ≡ destructors m) }
{
    let count = entry_count(object.fini_array) + single_count(object.fini);
    let mut addresses = Vec::with_capacity(alloc, count)?;
    push_entries(&mut addresses, image, object, object.fini_array);
    addresses.reverse();
    push_single(&mut addresses, base, object.fini);
    Ok(Addresses::from(addresses))
}

/// How many functions this is.
fn single_count(function: Option<u64>) -> usize
    ensures count { result ≡ single_in function }
    ensures few { result ≤ 1 }
{
    match function {
        Some(_) => 1,
        None => 0,
    }
}

/// How many entries an array has.
fn entry_count(array: Option<Span>) -> usize
    ensures count { result ≡ entries_in array }
    ensures few { result < 2 ^ 62 }
{
    match array {
        Some(array) => (array.size / WORD_SIZE) as usize,
        None => 0,
    }
}

/// Puts the address of a single function at the end, if there is one.
#[tactic(auto, unfolding(seg_image::specs::Pages::guest_address))]
fn push_single(addresses: &mut Vec<u64>, base: u64, function: Option<u64>)
    requires { vec_len addresses.old + single_in function ≤ vec_capacity addresses.old }
    ensures addresses { addresses.new.items ≡ addresses.old.items ++ entry_at base function }
    ensures count { vec_len addresses.new ≡ vec_len addresses.old + single_in function }
    ensures capacity { vec_capacity addresses.new ≡ vec_capacity addresses.old }
{
    if let Some(function) = function {
        addresses.push_reserved(base.wrapping_add(function));
    }
}

/// Puts the entries of an array at the end.
fn push_entries(addresses: &mut Vec<u64>, image: &Image, object: &Object, array: Option<Span>)
    requires accepted { Accepted object.now }
    requires array { (s : Span) → array ≡ Some s → IsArray object.now s }
    requires all { length image.now.words ≡ 512 * pages_of object.now }
    requires room { vec_len addresses.old + entries_in array ≤ vec_capacity addresses.old }
    ensures addresses { (base : ℕ) (value : ℕ → ℕ) → IsImage object.now base value image.now
        → addresses.new.items ≡ addresses.old.items ++ words_of value array }
    ensures count { vec_len addresses.new ≡ vec_len addresses.old + entries_in array }
    ensures capacity { vec_capacity addresses.new ≡ vec_capacity addresses.old }
{
    if let Some(array) = array {
        push_words(
            addresses,
            image,
            object,
            array.start,
            array.size / WORD_SIZE,
        );
    }
}

/// Puts so many words from an address of the object's own on at the end.
fn push_words(words: &mut Vec<u64>, image: &Image, object: &Object, start: u64, count: u64)
    requires accepted { Accepted object.now }
    requires aligned { start % 8 ≡ 0 }
    requires low { start + 8 * count < 2 ^ 63 }
    requires inside { (k : ℕ) → k < count → IsInside object.now (start + 8 * k) }
    requires all { length image.now.words ≡ 512 * pages_of object.now }
    requires room { vec_len words.old + count ≤ vec_capacity words.old }
    ensures words { (base : ℕ) (value : ℕ → ℕ) → IsImage object.now base value image.now → words.new.items ≡ words.old.items ++ words_at value start count }
    ensures count { vec_len words.new ≡ vec_len words.old + count }
    ensures capacity { vec_capacity words.new ≡ vec_capacity words.old }
{
    for index in 0..count {
        words.push_reserved(word_at(image, object, start + WORD_SIZE * index));
    }
}
