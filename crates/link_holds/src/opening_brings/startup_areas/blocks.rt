//! The bytes of a static area.

ghost use Rattle.std.specs.Prelude.{◌≡◌, ℕ, ◌+◌, ◌⊎◌, ◌<◌, ◌≤◌, length, slice_index, IfOk};
ghost use Rattle.link_holds.specs.OpeningBrings.StartupAreas.Blocks.{FitBlocks, HoldBlocks, static_offset};

use ld_base::Loaded;
use link_images::Part;
use std::alloc::{AllocError, Global};

/// The bytes of a static area, from its start on, where the static blocks end after so many bytes. The
/// block of each object begins with what is kept for it; beside that there are zeros.
///
/// # Errors
///
/// Want of memory.
pub fn static_bytes(
    alloc: Global,
    tp: u64,
    size: u64,
    objects: &[Loaded],
    parts: &[Part],
) -> Result<Vec<u8>, AllocError>
    requires count { length parts.now ≡ length objects.now }
    requires fit { FitBlocks tp size objects.now parts.now }
    ensures { IfOk result (λ bytes. HoldBlocks tp objects.now parts.now bytes.items) }
{
    let mut bytes = vec![in alloc; 0; size as usize]?;
    for (index, object) in objects.iter().enumerate() {
        if let Some(offset) = static_offset(object) {
            write(
                &mut bytes,
                (tp + offset) as usize,
                parts[index].storage.as_slice(),
            );
        }
    }
    Ok(bytes)
}

/// Where an object's static block stands, behind tp.
fn static_offset(object: &Loaded) -> Option<u64>
    ensures { result ≡ static_offset object.now }
{
    object.module?.offset
}

/// Writes a block over the bytes from a place on.
fn write(bytes: &mut [u8], at: usize, block: &[u8])
    requires { at + length block.now ≤ length bytes.old }
    ensures length { length bytes.new ≡ length bytes.old }
    ensures inside { (i : ℕ) → i < length block.now → slice_index bytes.new (at + i) ≡ slice_index block.now i }
    ensures beside { (v : ℕ) → (v < at) ⊎ (at + length block.now ≤ v) → slice_index bytes.new v ≡ slice_index bytes.old v }
{
    bytes[at..at + block.len()].copy_from_slice(block);
}
