//! Copies, which go on top of all other relocations.

ghost use Rattle.std.specs.Prelude.{◌≡◌, ℕ, ◌+◌, ◌*◌, ◌<◌, length};
ghost use Rattle.seg_image.specs.Accepted.{Accepted};
ghost use Rattle.seg_image.specs.Images.{AreBytes, IsImage};
ghost use Rattle.seg_image.specs.Pages.{IsInside, pages_of};
ghost use Rattle.seg_image.specs.Words.{word_of};
ghost use Rattle.relocator.specs.Bindings.{AreBindings, relas_of};
ghost use Rattle.relocator.specs.Copies.{pasted};
ghost use Rattle.relocator.specs.Relocated.{with_copies};

use crate::Bindings;
use ld_base::Object;
use seg_image::Image;

/// The bytes of the definition.
const R_RISCV_COPY: u32 = 4;

/// Copies the bytes of definitions to the places of the program's copies.
pub(crate) fn copy_bytes(image: &mut Image, object: &Object, bindings: &Bindings)
    requires accepted { Accepted object.now }
    requires bindings { AreBindings object.now bindings.now }
    requires all { length image.old.words ≡ 512 * pages_of object.now }
    ensures { (base : ℕ) (value : ℕ → ℕ) → IsImage object.now base value image.old
        → IsImage object.now base (word_of (with_copies (relas_of object.now bindings.now) value)) image.new }
{
    let bindings = bindings.as_slice();
    for (index, reloc) in object.relocs.as_slice().iter().enumerate() {
        if reloc.kind == R_RISCV_COPY {
            paste(
                image,
                object,
                reloc.place,
                bindings[index].copied.as_slice(),
            );
        }
    }
}

/// Puts bytes from an address on.
fn paste(image: &mut Image, object: &Object, place: u64, bytes: &[u8])
    requires accepted { Accepted object.now }
    requires inside { (k : ℕ) → k < length bytes.now → IsInside object.now (place + k) }
    requires all { length image.old.words ≡ 512 * pages_of object.now }
    ensures all { length image.new.words ≡ length image.old.words }
    ensures pasted { (base : ℕ) (old : ℕ → ℕ) → AreBytes old → IsImage object.now base (word_of old) image.old
        → IsImage object.now base (word_of (pasted place bytes.now old)) image.new }
    ensures bytes { (old : ℕ → ℕ) → AreBytes old → AreBytes (pasted place bytes.now old) }
{
    for (offset, byte) in bytes.iter().enumerate() {
        image.set_byte(object, place + offset as u64, *byte);
    }
}
