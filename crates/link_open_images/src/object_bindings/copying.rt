//! Bytes that copies take.

ghost use Rattle.std.specs.Prelude.{◌≡◌, ◌<◌, Bool, length, min, None, Some, IfNone, IfOk, IfSome};
ghost use Rattle.std.specs.List.{slice_get};
ghost use Rattle.link_open_images.specs.ObjectBindings.Bindings.{AreMade, CanRead, copies_from};
ghost use Rattle.scope_rule.specs.Loading.{with_serial};
ghost use Rattle.scope_rule.specs.Seen.{Seen};
ghost use Rattle.seg_image.specs.Accepted.{symbol_size};

use ld_base::{Bytes, Loaded, Object, Reloc, Serial};
use link_images::bytes_of;
use relocator::TlsPlaces;
use seg_image::Image;
use std::alloc::{AllocError, Global};

/// Objects whose images were made, an image an object, with the modules' places by which they were
/// relocated.
#[derive(Clone, Copy)]
pub(crate) struct Made<'a> {
    pub(crate) objects: &'a [Loaded],
    pub(crate) images: &'a [Image],
    pub(crate) places: &'a TlsPlaces,
}

/// So many bytes of an object's image from an address on: none where the object's image isn't there.
pub(crate) fn copied_from(
    alloc: Global,
    made: &Made,
    object: Option<Serial>,
    address: u64,
    count: u64,
) -> Result<Bytes, AllocError>
    requires { CanRead made.now.objects.now made.now.images.now }
    ensures { IfOk result (λ bytes. (ns : Seen) (now : Bool) → AreMade ns now made.now.places.now made.now.objects.now made.now.images.now
        → bytes ≡ copies_from ns now made.now.places.now made.now.objects.now object address count) }
{
    match object {
        Some(serial) => copied_of(alloc, made, serial, address, count),
        None => Ok(Bytes::new(alloc)),
    }
}

/// The same of an object with a serial.
fn copied_of(
    alloc: Global,
    made: &Made,
    serial: Serial,
    address: u64,
    count: u64,
) -> Result<Bytes, AllocError>
    requires { CanRead made.now.objects.now made.now.images.now }
    ensures { IfOk result (λ bytes. (ns : Seen) (now : Bool) → AreMade ns now made.now.places.now made.now.objects.now made.now.images.now
        → bytes ≡ copies_from ns now made.now.places.now made.now.objects.now (Some serial) address count) }
{
    match place_of(made.objects, serial) {
        Some(place) => {
            let object = &made.objects[place];
            let own = address.wrapping_sub(object.base);
            bytes_of(alloc, &made.images[place], &object.object, own, count)
        }
        None => Ok(Bytes::new(alloc)),
    }
}

/// The place of the first object with a serial.
fn place_of(objects: &[Loaded], serial: Serial) -> Option<usize>
    ensures within { IfSome result (λ place. place < length objects.now) }
    ensures there { IfSome result (λ place. slice_get objects.now place ≡ with_serial objects.now serial) }
    ensures none { IfNone result (with_serial objects.now serial ≡ None) }
{
    for (place, object) in objects.iter().enumerate() {
        if object.serial == serial {
            return Some(place);
        }
    }
    None
}

/// How many bytes a copy takes: the smaller of the sizes of its symbol and of the definition.
pub(crate) fn copied_size(object: &Object, reloc: &Reloc, size: u64) -> u64
    ensures { result ≡ min (symbol_size object.now reloc.now) size }
{
    match object.symbols.as_slice().get(reloc.symbol as usize) {
        Some(symbol) => symbol.size.min(size),
        None => 0,
    }
}
