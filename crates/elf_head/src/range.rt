//! The bytes of the file that stand for a range of addresses.

ghost use Rattle.std.specs.Prelude.{◌≡◌, ◌+◌, ◌^◌, ◌<◌, ◌≤◌, Ok, IfOk, IfSome, IsSome, IsTrue, ◌↔◌, find, length};
ghost use Rattle.std.specs.Option.{option_copied, option_map};
ghost use Rattle.elf_head.specs.Readable.{bytes_from, covers, file_bytes, file_offset, readable};
ghost use Rattle.elf_head.specs.Rules.{head_verdict};

use crate::program_headers::PT_LOAD;
use ld_base::{Head, Header, SharedBytes};
use std::alloc::AllocError;

/// Where the file has the first of the bytes that stand for so many addresses from a start on. A range of no
/// addresses has its bytes at the file's begin.
#[tactic(auto, using(crate::proofs::Placing::found), unfolding(crate::specs::Readable::file_offset))]
fn offset_of(bytes: &[u8], head: &Head, start: u64, size: u64) -> Option<usize>
    requires { head_verdict bytes.now ≡ Ok head.now }
    ensures value { result ≡ file_offset head.now.headers start size }
    ensures held { IfSome result (λ at. at + size ≤ length bytes.now) }
    ensures readable { IsSome result ↔ IsTrue (readable head.now.headers start size) }
    ensures low { 0 < size → IsSome result → start + size ≤ 2 ^ 32 }
{
    if size == 0 {
        return Some(0);
    }
    let header = covering(head.headers.as_slice(), start, size)?;
    Some((header.offset + (start - header.vaddr)) as usize)
}

/// The bytes of the file that stand for so many addresses from a start on, where one mapped segment
/// has them all. A range of no addresses has no bytes, wherever it starts.
#[tactic(auto, unfolding(crate::specs::Readable::file_bytes))]
pub fn file_bytes<'a>(bytes: &'a [u8], head: &Head, start: u64, size: u64) -> Option<&'a [u8]>
    requires { head_verdict bytes.now ≡ Ok head.now }
    ensures found { option_map (λ part. part.now) result ≡ file_bytes bytes.now head.now.headers start size }
    ensures size { IfSome result (λ part. length part.now ≡ size) }
    ensures readable { IsSome result ↔ IsTrue (readable head.now.headers start size) }
    ensures low { 0 < size → IsSome result → start + size ≤ 2 ^ 32 }
{
    let at = offset_of(bytes, head, start, size)?;
    Some(&bytes[at..at + size as usize])
}

/// The same bytes, in the memory of the file.
///
/// # Errors
///
/// Want of memory: so many owners of the file that they can't be counted.
#[tactic(auto, unfolding(crate::specs::Readable::file_bytes))]
pub fn file_part(
    file: &SharedBytes,
    head: &Head,
    start: u64,
    size: u64,
) -> Result<Option<SharedBytes>, AllocError>
    requires { head_verdict file.now ≡ Ok head.now }
    ensures { IfOk result (λ part. part ≡ file_bytes file.now head.now.headers start size) }
{
    match offset_of(file.as_slice(), head, start, size) {
        Some(at) => Ok(Some(file.slice(at..at + size as usize)?)),
        None => Ok(None),
    }
}

/// The bytes of the file from the one that stands for an address on, up to the last of its segment.
/// There are none where no mapped segment has the address in its bytes of the file.
#[tactic(auto, using(crate::proofs::Placing::found), unfolding(crate::specs::Readable::bytes_from))]
pub fn bytes_from<'a>(bytes: &'a [u8], head: &Head, start: u64) -> &'a [u8]
    requires { head_verdict bytes.now ≡ Ok head.now }
    ensures value { result.now ≡ bytes_from bytes.now head.now.headers start }
    ensures few { length result.now ≤ 8_388_608 }
{
    match covering(head.headers.as_slice(), start, 1) {
        Some(header) => {
            let at = (header.offset + (start - header.vaddr)) as usize;
            &bytes[at..(header.offset + header.filesz) as usize]
        }
        None => &bytes[..0],
    }
}

/// Whether so many addresses from a start on have bytes in the file, those of one mapped segment. A
/// range of no addresses is readable anywhere.
pub fn is_readable(headers: &[Header], start: u64, size: u64) -> bool
    ensures { result ≡ readable headers.now start size }
{
    size == 0 || covering(headers, start, size).is_some()
}

/// The first mapped segment that has the range in its bytes of the file.
fn covering(headers: &[Header], start: u64, size: u64) -> Option<&Header>
    ensures { option_copied result ≡ find (covers start size) headers.now }
{
    for header in headers {
        if covers(header, start, size) {
            return Some(header);
        }
    }
    None
}

/// Whether the segment is mapped and has the range in its bytes of the file.
fn covers(header: &Header, start: u64, size: u64) -> bool
    ensures { result ≡ covers start size header.now }
{
    header.kind == PT_LOAD
        && header.memsz > 0
        && header.vaddr <= start
        && start - header.vaddr <= header.filesz
        && size <= header.filesz - (start - header.vaddr)
}
