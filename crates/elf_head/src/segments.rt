//! Which program headers can be mapped (gABI, "Program Header" and "Program Loading").

ghost use Rattle.std.specs.Prelude.{◌≡◌, ◌+◌, ◌<◌, ◌^◌, ℕ, [], List, nat_lt};
ghost use Rattle.ld_base.specs.declared.parts.Header.{Header};
ghost use Rattle.elf_head.specs.Segments.{bad_segment, first_page, is_bad_storage, is_misshapen, last_page};
ghost use Rattle.elf_head.specs.Passed.{IsPassed, Judges};

use crate::program_headers::{PT_DYNAMIC, PT_LOAD, PT_TLS};
use crate::range::is_readable;
use ld_base::Header;

/// The bytes of a page.
pub(crate) const PAGE: u64 = 4096;
/// The end of the addresses that a segment may have.
pub(crate) const ADDRESS_LIMIT: u64 = 1 << 32;
/// The most memory, and the widest alignment, of a thread's storage for one object.
pub(crate) const TLS_LIMIT: u64 = 1 << 20;

/// The first header that breaks a rule, or their number where no segment is mapped.
#[tactic(auto, unfolding(crate::specs::Segments::bad_segment))]
pub(crate) fn bad_segment(headers: &[Header], file_size: u64) -> Option<usize>
    ensures { result ≡ bad_segment file_size headers.now }
{
    let mut passed = Passed::new();
    for (index, header) in headers.iter().enumerate() {
        match passed.and(header, headers, file_size) {
            Some(next) => passed = next,
            None => return Some(index),
        }
    }
    if passed.last_page.is_some() {
        None
    } else {
        Some(headers.len())
    }
}

/// What the headers before one say of it.
#[derive(Clone, Copy)]
struct Passed {
    /// The last page of the last mapped segment.
    last_page: Option<u64>,
    has_dynamic: bool,
    has_tls: bool,
}

#[tactic(auto, using(crate::proofs::Passing::passing), unfolding(crate::specs::Segments::is_bad, crate::specs::Segments::is_misplaced))]
impl Passed {
    /// No header.
    fn new() -> Self
        ensures { IsPassed [] result }
    {
        Passed {
            last_page: None,
            has_dynamic: false,
            has_tls: false,
        }
    }

    /// The headers passed with one more, unless it breaks a rule.
    fn and(self, header: &Header, headers: &[Header], file_size: u64) -> Option<Self>
        ensures { (before : List Header) → IsPassed before self → Judges file_size headers.now before header.now result }
    {
        match header.kind {
            PT_LOAD => self.and_load(header, file_size),
            PT_DYNAMIC => self.and_dynamic(),
            PT_TLS => self.and_tls(header, headers, file_size),
            _ => Some(self),
        }
    }

    /// With a segment to be mapped, which is passed over where it takes no memory. As the segments
    /// before it stand in ascending order, it has only to begin above the last of them.
    fn and_load(self, header: &Header, file_size: u64) -> Option<Self>
        ensures { (headers before : List Header) → header.now.kind ≡ 1 → IsPassed before self → Judges file_size headers before header.now result }
    {
        if header.memsz == 0 {
            return Some(self);
        }
        let is_misplaced = self
            .last_page
            .is_some_and(|page| first_page(header) <= page);
        if is_misplaced || is_misshapen(header, file_size) {
            return None;
        }
        Some(Passed {
            last_page: Some(last_page(header)),
            ..self
        })
    }

    /// With a dynamic table, which has to be the only one.
    fn and_dynamic(self) -> Option<Self>
        ensures { (size : ℕ) (headers before : List Header) (h : Header) → h.kind ≡ 2 → IsPassed before self → Judges size headers before h result }
    {
        if self.has_dynamic {
            return None;
        }
        Some(Passed {
            has_dynamic: true,
            ..self
        })
    }

    /// With a segment of thread-local storage, which has to be the only one.
    fn and_tls(self, header: &Header, headers: &[Header], file_size: u64) -> Option<Self>
        ensures { (before : List Header) → header.now.kind ≡ 7 → IsPassed before self → Judges file_size headers.now before header.now result }
    {
        if self.has_tls || is_bad_storage(header, headers, file_size) {
            return None;
        }
        Some(Passed {
            has_tls: true,
            ..self
        })
    }
}

/// Whether a segment of thread-local storage by itself breaks a rule, among these headers.
fn is_bad_storage(header: &Header, headers: &[Header], file_size: u64) -> bool
    ensures { result ≡ is_bad_storage file_size headers.now header.now }
{
    is_misshapen(header, file_size)
        || !is_readable(headers, header.vaddr, header.filesz)
        || header.memsz > TLS_LIMIT
        || header.align > TLS_LIMIT
}

/// Whether the segment by itself breaks a rule, in a file of this size.
#[tactic(auto, unfolding(crate::specs::Segments::is_misshapen))]
fn is_misshapen(header: &Header, file_size: u64) -> bool
    ensures { result ≡ is_misshapen file_size header.now }
{
    header.filesz > header.memsz
        || (header.filesz > 0 && passes(header.offset, header.filesz, file_size))
        || passes(header.vaddr, header.memsz, ADDRESS_LIMIT)
        || (header.align > 0 && !header.align.is_power_of_two())
        || (header.align > 1 && header.vaddr % header.align != header.offset % header.align)
}

/// Whether so many from a start on pass a limit.
fn passes(start: u64, size: u64, limit: u64) -> bool
    ensures { result ≡ nat_lt limit (start + size) }
{
    start > limit || size > limit - start
}

/// The first page of a segment.
fn first_page(header: &Header) -> u64
    ensures { result ≡ first_page header.now }
{
    header.vaddr / PAGE
}

/// The last page of a segment that takes memory.
fn last_page(header: &Header) -> u64
    requires some { 0 < header.now.memsz }
    requires fits { header.now.vaddr + header.now.memsz < 2 ^ 64 }
    ensures { result ≡ last_page header.now }
{
    (header.vaddr + header.memsz - 1) / PAGE
}
