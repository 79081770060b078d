//! The table of program headers (gABI, "Program Header").

ghost use Rattle.std.specs.Prelude.{◌≡◌, ◌+◌, ◌*◌, ◌≤◌, length, IfOk};
ghost use Rattle.elf_head.specs.Header.{header_at, headers_of, header_count, table_start};

use ld_base::{Header, Headers, field16, field32, field64};
use std::alloc::{AllocError, Global};

/// A segment that is mapped.
pub const PT_LOAD: u32 = 1;
/// The dynamic table.
pub const PT_DYNAMIC: u32 = 2;
/// The segment from which each thread's storage is made.
pub const PT_TLS: u32 = 7;
/// The range that is read-only once it is relocated.
pub const PT_GNU_RELRO: u32 = 0x6474_e552;

/// The bytes of one entry.
pub(crate) const ENTRY_SIZE: usize = 56;

/// The header at a place.
#[tactic(auto, unfolding(crate::specs::Header::header_at))]
fn header_at(bytes: &[u8], at: usize) -> Header
    requires { at + 56 ≤ length bytes.now }
    ensures { result ≡ header_at bytes.now at }
{
    Header {
        kind: field32(bytes, at),
        flags: field32(bytes, at + 4),
        offset: field64(bytes, at + 8),
        vaddr: field64(bytes, at + 16),
        filesz: field64(bytes, at + 32),
        memsz: field64(bytes, at + 40),
        align: field64(bytes, at + 48),
    }
}

/// All headers, in file order.
#[tactic(auto, unfolding(crate::specs::Header::headers_of))]
pub(crate) fn read_headers(alloc: Global, bytes: &[u8]) -> Result<Headers, AllocError>
    requires long { 64 ≤ length bytes.now }
    requires held { table_start bytes.now + 56 * header_count bytes.now ≤ length bytes.now }
    ensures { IfOk result (λ headers. headers ≡ headers_of bytes.now) }
{
    let start = field64(bytes, 32) as usize;
    let count = usize::from(field16(bytes, 56));
    let mut headers = Vec::with_capacity(alloc, count)?;
    for index in 0..count {
        headers.push(header_at(bytes, start + ENTRY_SIZE * index))?;
    }
    Ok(Headers::from(headers))
}
