//! The relocation of an image.

ghost use Rattle.std.specs.Prelude.{◌≡◌, ◌↔◌, ℕ, ◌+◌, ◌*◌, ◌%◌, ◌^◌, ◌≤◌, length, OnOk, OnErr, Some, None, Err, if◌then◌else◌};
ghost use Rattle.seg_image.specs.Accepted.{Accepted, IsPlace};
ghost use Rattle.seg_image.specs.Images.{IsImage};
ghost use Rattle.seg_image.specs.Pages.{IsPlaced, pages_of};
ghost use Rattle.seg_image.specs.Words.{file_word};
ghost use Rattle.relocator.specs.Bindings.{AreBindings, relas_of, slots_of};
ghost use Rattle.relocator.specs.Relocated.{addend_of, fills_word, image_word, linkers_at, over, packed_at, rela_at, slot_at, value_of};
ghost use Rattle.relocator.specs.Storage.{first_without_offset};

use crate::copying::copy_bytes;
use crate::storage::{first_without_offset, module_of, offset_of, storage_object, storage_value};
use crate::{Binding, Bindings, TlsPlaces};
use ld_base::{Object, Reloc, Serial};
use seg_image::Image;
use thiserror::Error;

/// The symbol's address and the addend.
const R_RISCV_64: u32 = 2;
/// The base and the addend.
const R_RISCV_RELATIVE: u32 = 3;
/// The number of the definition's module.
const R_RISCV_TLS_DTPMOD64: u32 = 7;
/// Where the definition lies in its module's block.
const R_RISCV_TLS_DTPREL64: u32 = 9;
/// Where the definition lies in each static block.
pub(crate) const R_RISCV_TLS_TPREL64: u32 = 11;
/// What a TLS_DTPREL64 is less than the place in the block.
const DTP_OFFSET: u64 = 0x800;
/// Where a slot that isn't bound yet enters the linker.
const RESOLVE: u64 = 0x80f000;

/// A relocation that can't be made.
#[derive(Clone, Copy, Debug, PartialEq, Eq, Error)]
pub enum RelocFault {
    /// The TLS_TPREL64 at this place chose an object without a static offset.
    #[error("the relocation at {0:#x} needs static thread-local storage")]
    NeedsStaticTls(u64),
}

/// Applies an object's relocations to its image.
///
/// # Errors
///
/// That a TLS_TPREL64 chose an object without a static offset, with the place of the first. The image
/// is as before then.
pub fn relocate(
    image: &mut Image,
    object: &Object,
    base: u64,
    serial: Serial,
    bindings: &Bindings,
    places: &TlsPlaces,
) -> Result<(), RelocFault>
    requires accepted { Accepted object.now }
    requires placed { IsPlaced object.now base }
    requires image { IsImage object.now base (file_word object.now) image.old }
    requires bindings { AreBindings object.now bindings.now }
    ensures image { OnOk result (IsImage object.now base (image_word object.now base serial bindings.now places.now) image.new) }
    ensures refused { (place : ℕ) → (result ≡ Err (RelocFault.NeedsStaticTls place))
        ↔ (first_without_offset object.now serial bindings.now places.now ≡ Some place) }
    ensures unchanged { OnErr result (image.new ≡ image.old) }
{
    if let Some(place) = first_without_offset(object, serial, bindings, places) {
        return Err(RelocFault::NeedsStaticTls(place));
    }
    move_packed(image, object, base);
    fill_slots(image, object, base, bindings);
    fill_words(image, object, base, serial, bindings, places);
    put_linkers(image, object, serial);
    copy_bytes(image, object, bindings);
    Ok(())
}

/// Moves the words that packed relocations name.
fn move_packed(image: &mut Image, object: &Object, base: u64)
    requires accepted { Accepted object.now }
    requires image { IsImage object.now base (file_word object.now) image.old }
    ensures { IsImage object.now base (over (packed_at object.now base object.now.relr) (file_word object.now)) image.new }
{
    for place in object.relr.as_slice() {
        let word = image.value(object, *place).wrapping_add(base);
        image.set_value(object, *place, word);
    }
}

/// Fills the slots that are bound, and moves the words of those that stay lazy.
fn fill_slots(image: &mut Image, object: &Object, base: u64, bindings: &Bindings)
    requires accepted { Accepted object.now }
    requires count { length bindings.now ≡ length object.now.relocs + length object.now.plt_relocs }
    requires image { IsImage object.now base (over (packed_at object.now base object.now.relr) (file_word object.now)) image.old }
    ensures { IsImage object.now base
        (over (slot_at object.now base (slots_of object.now bindings.now)) (over (packed_at object.now base object.now.relr) (file_word object.now)))
        image.new }
{
    let bindings = &bindings.as_slice()[object.relocs.len()..];
    for (index, slot) in object.plt_relocs.as_slice().iter().enumerate() {
        let word = slot_word(image, object, slot, &bindings[index], base);
        image.set_value(object, slot.place, word);
    }
}

/// The word of a slot.
fn slot_word(image: &Image, object: &Object, slot: &Reloc, binding: &Binding, base: u64) -> u64
    requires accepted { Accepted object.now }
    requires place { IsPlace object.now slot.now.place }
    requires all { length image.now.words ≡ 512 * pages_of object.now }
    ensures { (value : ℕ → ℕ) → IsImage object.now base value image.now
        → result ≡ (if binding.now.bound then binding.now.value else (value slot.now.place + base) % 2 ^ 64) }
{
    if binding.bound {
        binding.value
    } else {
        image.value(object, slot.place).wrapping_add(base)
    }
}

/// Fills the words of the relocations of DT_RELA.
fn fill_words(
    image: &mut Image,
    object: &Object,
    base: u64,
    serial: Serial,
    bindings: &Bindings,
    places: &TlsPlaces,
)
    requires accepted { Accepted object.now }
    requires count { length object.now.relocs ≤ length bindings.now }
    requires all { length image.old.words ≡ 512 * pages_of object.now }
    ensures { (value : ℕ → ℕ) → IsImage object.now base value image.old
        → IsImage object.now base (over (rela_at base serial places.now (relas_of object.now bindings.now)) value) image.new }
{
    let bindings = bindings.as_slice();
    for (index, reloc) in object.relocs.as_slice().iter().enumerate() {
        if let Some(word) = word_of(reloc, base, serial, &bindings[index], places) {
            image.set_value(object, reloc.place, word);
        }
    }
}

/// The word that a relocation gives, where its type is one that fills a word.
fn word_of(
    reloc: &Reloc,
    base: u64,
    serial: Serial,
    binding: &Binding,
    places: &TlsPlaces,
) -> Option<u64>
    ensures { result ≡ (if fills_word reloc.now then Some (value_of base serial places.now (reloc.now, binding.now)) else None) }
{
    let addend = addend_of(reloc);
    match reloc.kind {
        R_RISCV_64 => Some(binding.value.wrapping_add(addend)),
        R_RISCV_RELATIVE => Some(base.wrapping_add(addend)),
        R_RISCV_TLS_DTPMOD64 => Some(module_of(places, storage_object(serial, reloc, binding))),
        R_RISCV_TLS_DTPREL64 => Some(
            storage_value(reloc, binding)
                .wrapping_add(addend)
                .wrapping_sub(DTP_OFFSET),
        ),
        R_RISCV_TLS_TPREL64 => {
            let offset = offset_of(places, storage_object(serial, reloc, binding)).unwrap_or(0);
            Some(
                storage_value(reloc, binding)
                    .wrapping_add(addend)
                    .wrapping_add(offset),
            )
        }
        _ => None,
    }
}

/// The addend of a relocation as a number of 64 bits.
fn addend_of(reloc: &Reloc) -> u64
    ensures { result ≡ addend_of reloc.now }
{
    reloc.addend.cast_unsigned()
}

/// Puts the linker's two words at the head of .got.plt, in an object with slots.
fn put_linkers(image: &mut Image, object: &Object, serial: Serial)
    requires accepted { Accepted object.now }
    requires all { length image.old.words ≡ 512 * pages_of object.now }
    ensures { (base : ℕ) (value : ℕ → ℕ) → IsImage object.now base value image.old
        → IsImage object.now base (over (linkers_at object.now serial) value) image.new }
{
    if object.plt_relocs.is_empty() {
        return;
    }
    if let Some(table) = object.pltgot {
        image.set_value(object, table, RESOLVE);
        image.set_value(object, table + 8, serial.number());
    }
}
