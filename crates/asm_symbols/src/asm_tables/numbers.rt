//! Numbers of 16 and of 32 bits.

ghost use Rattle.std.specs.Prelude.{◌≡◌, ◌+◌, length};
ghost use Rattle.asm_layout.specs.Versions.{half, word};

/// The lowest 16 bits of a number.
pub fn half(number: u128) -> u16
    ensures { result ≡ half number }
{
    (number % 0x1_0000) as u16
}

/// The lowest 32 bits of a number.
pub fn word(number: u128) -> u32
    ensures { result ≡ word number }
{
    (number % 0x1_0000_0000) as u32
}

/// The offset of the string that stands behind a name and its zero byte.
pub fn offset_behind(at: u32, name: &[u8]) -> u32
    ensures { result ≡ word (at + length name.now + 1) }
{
    word(u128::from(at) + name.len() as u128 + 1)
}
