//! Little-endian numbers at a place in bytes (gABI, "Data Representation").

ghost use Rattle.std.specs.Prelude.{◌≡◌, ◌+◌, ◌≤◌, length};
ghost use Rattle.ld_base.specs.Field.{field};

use byteorder::{ByteOrder, LittleEndian};

/// The 16-bit number at a place.
#[tactic(auto, unfolding(crate::specs::Field::field))]
pub fn field16(bytes: &[u8], at: usize) -> u16
    requires { at + 2 ≤ length bytes.now }
    ensures { result ≡ field 2 bytes.now at }
{
    LittleEndian::read_u16(&bytes[at..])
}

/// The 32-bit number at a place.
#[tactic(auto, unfolding(crate::specs::Field::field))]
pub fn field32(bytes: &[u8], at: usize) -> u32
    requires { at + 4 ≤ length bytes.now }
    ensures { result ≡ field 4 bytes.now at }
{
    LittleEndian::read_u32(&bytes[at..])
}

/// The 64-bit number at a place.
#[tactic(auto, unfolding(crate::specs::Field::field))]
pub fn field64(bytes: &[u8], at: usize) -> u64
    requires { at + 8 ≤ length bytes.now }
    ensures { result ≡ field 8 bytes.now at }
{
    LittleEndian::read_u64(&bytes[at..])
}
