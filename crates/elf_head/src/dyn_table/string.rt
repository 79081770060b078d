//! Strings of a string table (gABI, "String Table").

ghost use Rattle.std.specs.Prelude.{◌≡◌, ◌==◌, ◌+◌, ◌<◌, ◌≤◌, ◌^◌, IfOk, IfSome, OnErr, length, position, take, drop};
ghost use Rattle.std.specs.Option.{option_copied};
ghost use Rattle.elf_head.specs.DynTable.Name.{string_at, string_in, StandsAt};

use ld_base::{Name, SharedBytes};
use std::alloc::AllocError;

/// The most bytes that a string has, its zero byte counted: what keeps reading many of them cheap.
pub const STRING_LIMIT: usize = 4096;

/// The most bytes that the names of one list have together: eight times those of the largest file. Names
/// may share bytes of the file, and what links objects copies some of them: without a bound a file could
/// ask for memory of thousands of times its own bytes.
const MOST_NAME_BYTES: usize = 1 << 26;

/// The index of the first zero byte.
fn first_zero(bytes: &[u8]) -> Option<usize>
    ensures { result ≡ position (λ b. b == 0) bytes.now }
{
    bytes.iter().position(|byte| *byte == 0)
}

/// The bytes among which the string at an offset and its zero byte have to be.
fn window(strings: &[u8], offset: u64) -> &[u8]
    ensures { result.now ≡ take 4096 (drop offset strings.now) }
{
    if offset >= strings.len() as u64 {
        return &[];
    }
    let rest = &strings[offset as usize..];
    &rest[..STRING_LIMIT.min(rest.len())]
}

/// The bytes of the string at an offset, without the zero byte that ends it. None where it starts
/// outside the table, isn't ended in it, or is longer than 4,095 bytes.
#[tactic(auto, unfolding(crate::specs::DynTable::Name::string_at), using(crate::proofs::DynTable::Strings::string_found))]
pub fn string_at(strings: &[u8], offset: u64) -> Option<&[u8]>
    ensures value { option_copied result ≡ string_at strings.now offset }
    ensures place { IfSome result (λ name. StandsAt strings.now offset name.now) }
{
    let window = window(strings, offset);
    match first_zero(window) {
        Some(end) => Some(&window[..end]),
        None => None,
    }
}

/// The string at an offset, in the memory of the table; the name of no bytes where there is none.
///
/// # Errors
///
/// Want of memory: so many owners of the table that they can't be counted.
pub fn read_string(strings: &SharedBytes, offset: u64) -> Result<Name, AllocError>
    ensures { IfOk result (λ name. name ≡ string_in strings.now offset) }
{
    match string_at(strings.as_slice(), offset) {
        Some(bytes) => {
            let start = offset as usize;
            let end = start + bytes.len();
            Ok(Name::from(strings.slice(start..end)?))
        }
        None => Ok(Name::empty()),
    }
}

/// How many bytes some names and one more have together.
///
/// # Errors
///
/// Want of memory, which more than 64 MiB count as.
pub fn with_name(so_far: usize, name: &Name) -> Result<usize, AllocError>
    ensures sum { IfOk result (λ together. together ≡ so_far + length name.now) }
    ensures bound { IfOk result (λ together. together ≤ 2 ^ 26) }
    ensures refused { OnErr result (2 ^ 26 < so_far + length name.now) }
{
    let together = so_far.saturating_add(name.as_bytes().len());
    if together > MOST_NAME_BYTES {
        return Err(AllocError);
    }
    Ok(together)
}
