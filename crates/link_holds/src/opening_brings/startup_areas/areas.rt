//! Images of pages for data.

ghost use Rattle.std.specs.Prelude.{◌≡◌, ◌+◌, ◌*◌, ◌≤◌, ◌^◌, filter, length, Contains, IfOk, IsTrue};
ghost use Rattle.link_open_images.specs.AreaImages.Areas.{IsArea};
ghost use Rattle.history_event.specs.declared.event.Range.{Range as range};
ghost use Rattle.history_calls.specs.Served.{is_area};
ghost use Rattle.link_holds.specs.OpeningBrings.StartupAreas.Areas.{AreAreas, AreFilled, filling};
ghost use Rattle.link_holds.specs.OpeningBrings.StartupAreas.Blocks.{FitBlocks};

use crate::opening_brings::startup_areas::blocks::static_bytes;
use history_event::{Purpose, Range};
use ld_base::Loaded;
use link_images::Part;
use link_open_images::area_image;
use seg_image::{Image, Images};
use std::alloc::{AllocError, Global};

/// The images of the stacks and static areas among the ranges that an opening reserves, which are there
/// only at startup: `tp` says how far tp is from the start of an area, and `size` where the last block ends.
///
/// # Errors
///
/// Want of memory.
pub fn areas_of(
    alloc: Global,
    startup: bool,
    tp: u64,
    size: u64,
    ranges: &[Range],
    objects: &[Loaded],
    parts: &[Part],
) -> Result<Images, AllocError>
    requires count { length parts.now ≡ length objects.now }
    requires fit { FitBlocks tp (tp + size) objects.now parts.now }
    requires low { (r : range) → Contains ranges.now r → IsTrue (is_area r) → r.address + 4096 * r.pages ≤ 2 ^ 32 }
    ensures { IfOk result (AreAreas startup tp ranges.now objects.now parts.now) }
{
    if !startup {
        return Ok(Images::new(alloc));
    }
    let Some(end) = tp.checked_add(size) else {
        return Err(AllocError);
    };
    let bytes = static_bytes(alloc, tp, end, objects, parts)?;
    filled(alloc, ranges, bytes.as_slice())
}

/// The images of areas where each static area has these bytes.
fn filled(alloc: Global, ranges: &[Range], bytes: &[u8]) -> Result<Images, AllocError>
    requires low { (r : range) → Contains ranges.now r → IsTrue (is_area r) → r.address + 4096 * r.pages ≤ 2 ^ 32 }
    ensures { IfOk result (AreFilled bytes.now (filter is_area ranges.now)) }
{
    let mut images = Images::new(alloc);
    for range in ranges {
        if is_area(range) {
            images.push(image_of(alloc, range, bytes)?)?;
        }
    }
    Ok(images)
}

/// Whether the pages are for data.
fn is_area(range: &Range) -> bool
    ensures { result ≡ is_area range.now }
{
    !matches!(range.purpose, Purpose::Object(_))
}

/// The image of an area.
fn image_of(alloc: Global, range: &Range, bytes: &[u8]) -> Result<Image, AllocError>
    requires { range.now.address + 4096 * range.now.pages ≤ 2 ^ 32 }
    ensures { IfOk result (IsArea range.now.address range.now.pages range.now.address (filling bytes.now range.now.purpose)) }
{
    match range.purpose {
        Purpose::StaticTls(_) => {
            area_image(alloc, range.address, range.pages, range.address, bytes)
        }
        Purpose::Object(_) | Purpose::Stack(_) | Purpose::Block(_, _) => {
            area_image(alloc, range.address, range.pages, range.address, &[])
        }
    }
}
