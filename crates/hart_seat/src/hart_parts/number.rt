//! Numbers among bytes.

ghost use Rattle.std.specs.Prelude.{◌≡◌, ◌+◌, ◌≤◌, ◌^◌, slice_index};
ghost use Rattle.seg_image.specs.Words.{word_of};

/// The number that eight bytes make from a place on, the lowest first. Behind the last byte there are
/// zeros.
pub fn number_at(bytes: &[u8], place: usize) -> u64
    requires { place + 8 ≤ 2 ^ 64 }
    ensures { result ≡ word_of (slice_index bytes.now) place }
{
    let mut eight = [0; 8];
    for (offset, byte) in eight.iter_mut().enumerate() {
        *byte = bytes.get(place + offset).copied().unwrap_or(0);
    }
    u64::from_le_bytes(eight)
}
