//! What relocations of thread-local storage take from the chosen object.

ghost use Rattle.std.specs.Prelude.{◌≡◌, ◌≤◌, length};
ghost use Rattle.relocator.specs.Storage.{first_without_offset, lacks_offset, module_of, offset_of, place_of, storage_object, storage_value};

use crate::relocating::R_RISCV_TLS_TPREL64;
use crate::{Binding, Bindings, ModulePlace, TlsPlaces};
use ld_base::{Object, Reloc, Serial};

/// The object that a relocation means: by the null symbol its own.
pub(crate) fn storage_object(serial: Serial, reloc: &Reloc, binding: &Binding) -> Option<Serial>
    ensures { result ≡ storage_object serial reloc.now binding.now }
{
    if reloc.symbol == 0 {
        Some(serial)
    } else {
        binding.object
    }
}

/// The value of its symbol in that object.
pub(crate) fn storage_value(reloc: &Reloc, binding: &Binding) -> u64
    ensures { result ≡ storage_value reloc.now binding.now }
{
    if reloc.symbol == 0 { 0 } else { binding.value }
}

/// The module of an object.
fn place_of(places: &TlsPlaces, serial: Serial) -> Option<ModulePlace>
    ensures { result ≡ place_of places.now serial }
{
    for place in places.as_slice() {
        if place.serial == serial {
            return Some(*place);
        }
    }
    None
}

/// The number of an object's module: 0 where there is no object, or it has no module.
pub(crate) fn module_of(places: &TlsPlaces, object: Option<Serial>) -> u64
    ensures { result ≡ module_of places.now object }
{
    match object {
        Some(serial) => place_of(places, serial).map_or(0, |place| place.number),
        None => 0,
    }
}

/// An object's offset in each static block: 0 where there is no object.
pub(crate) fn offset_of(places: &TlsPlaces, object: Option<Serial>) -> Option<u64>
    ensures { result ≡ offset_of places.now object }
{
    match object {
        Some(serial) => place_of(places, serial).and_then(|place| place.offset),
        None => Some(0),
    }
}

/// Whether a relocation is a TLS_TPREL64 of an object without an offset in each static block.
fn lacks_offset(serial: Serial, reloc: &Reloc, binding: &Binding, places: &TlsPlaces) -> bool
    ensures { result ≡ lacks_offset serial places.now (reloc.now, binding.now) }
{
    if reloc.kind != R_RISCV_TLS_TPREL64 {
        return false;
    }
    offset_of(places, storage_object(serial, reloc, binding)).is_none()
}

/// The place of the first TLS_TPREL64 whose chosen object has no static offset.
#[tactic(auto, unfolding(crate::specs::Storage::first_without_offset))]
pub(crate) fn first_without_offset(
    object: &Object,
    serial: Serial,
    bindings: &Bindings,
    places: &TlsPlaces,
) -> Option<u64>
    requires { length object.now.relocs ≤ length bindings.now }
    ensures { result ≡ first_without_offset object.now serial bindings.now places.now }
{
    let bindings = bindings.as_slice();
    for (index, reloc) in object.relocs.as_slice().iter().enumerate() {
        if lacks_offset(serial, reloc, &bindings[index], places) {
            return Some(reloc.place);
        }
    }
    None
}
