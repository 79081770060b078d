//! What a linker keeps of an image.

ghost use Rattle.std.specs.Prelude.{◌≡◌, ℕ, ◌*◌, length, IfOk};
ghost use Rattle.link_images.specs.Parts.{part_of, storage_of};
ghost use Rattle.link_images.specs.ImageReads.Reads.{IsImageOf};
ghost use Rattle.history_state.specs.Accepted.{IsAccepted};
ghost use Rattle.history_state.specs.State.{Linked};
ghost use Rattle.seg_image.specs.Pages.{pages_of};

use crate::Part;
use crate::image_reads::bytes::bytes_of;
use crate::image_reads::functions::destructors;
use ld_base::{Bytes, Loaded, Object};
use seg_image::{Image, pages_hold_segments};
use std::alloc::{AllocError, Global};

/// What is kept of the image of a loaded object.
///
/// # Errors
///
/// Want of memory.
pub fn part_of(alloc: Global, image: &Image, loaded: &Loaded) -> Result<Part, AllocError>
    requires accepted { IsAccepted loaded.now.object }
    requires all { length image.now.words ≡ 512 * pages_of loaded.now.object }
    ensures { IfOk result (λ part. (m : Linked) → m.serial ≡ loaded.now.serial → IsImageOf m loaded.now.object loaded.now.base image.now → part ≡ part_of m) }
{
    let destructors = destructors(alloc, image, &loaded.object, loaded.base)?;
    Ok(Part {
        serial: loaded.serial,
        destructors,
        storage: storage_of(alloc, image, &loaded.object)?,
    })
}

/// What the object gives for a block of its thread-local storage.
fn storage_of(alloc: Global, image: &Image, object: &Object) -> Result<Bytes, AllocError>
    requires accepted { IsAccepted object.now }
    requires all { length image.now.words ≡ 512 * pages_of object.now }
    ensures { IfOk result (λ bytes. (m : Linked) (base : ℕ) → IsImageOf m object.now base image.now → bytes ≡ storage_of m) }
{
    pages_hold_segments();
    match object.tls {
        Some(segment) => bytes_of(alloc, image, object, segment.vaddr, segment.filesz),
        None => Ok(Bytes::new(alloc)),
    }
}
