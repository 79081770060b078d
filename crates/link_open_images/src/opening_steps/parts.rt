//! What is kept of images.

ghost use Rattle.std.specs.Prelude.{◌≡◌, ◌+◌, ◌≤◌, ◌++◌, map, Contains, IfOk};
ghost use Rattle.std.specs.Vec.{vec_len};
ghost use Rattle.link_images.specs.Parts.{part_of};
ghost use Rattle.ld_base.specs.declared.linking.Loaded.{Loaded as loaded};
ghost use Rattle.history_state.specs.Accepted.{IsAccepted};
ghost use Rattle.history_state.specs.State.{Linked};
ghost use Rattle.link_open_images.specs.ObjectBindings.Bindings.{CanRead};
ghost use Rattle.link_open_images.specs.OpeningSteps.Steps.{AreOfRecords};
ghost use Rattle.seg_image.specs.declared.image.Image.{Image as image};

use ld_base::Loaded;
use link_images::{ImageParts, Part, part_of};
use seg_image::Image;
use std::alloc::{AllocError, Global};

/// What is kept of the images of new objects, an image an object.
///
/// # Errors
///
/// Want of memory.
pub fn parts_of(
    alloc: Global,
    objects: &[Loaded],
    images: &[Image],
) -> Result<Vec<Part>, AllocError>
    requires accepted { (o : loaded) → Contains objects.now o → IsAccepted o.object }
    requires read { CanRead objects.now images.now }
    ensures { (record_of : loaded → Linked) → AreOfRecords record_of objects.now images.now
        → IfOk result (λ parts. parts.items ≡ map part_of (map record_of objects.now)) }
{
    let mut parts = Vec::new(alloc);
    for (index, object) in objects.iter().enumerate() {
        parts.push(part_of(alloc, &images[index], object)?)?;
    }
    Ok(parts)
}

/// Puts parts at the end of those that are kept, where there is room for them.
pub fn keep_all(kept: &mut ImageParts, parts: Vec<Part>)
    requires { vec_len parts ≤ kept.old.room }
    ensures parts { kept.new.parts ≡ kept.old.parts ++ parts.items }
    ensures room { kept.new.room + vec_len parts ≡ kept.old.room }
{
    for part in parts {
        kept.push(part);
    }
}
