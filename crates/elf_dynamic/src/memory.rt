//! The memory of segments (gABI, "Program Header": p_flags, p_vaddr, p_memsz).

ghost use Rattle.std.specs.Prelude.{◌≡◌, ◌&&◌};
ghost use Rattle.std.specs.List.{list_any};
ghost use Rattle.elf_head.specs.Header.{is_loaded};
ghost use Rattle.elf_dynamic.specs.Memory.{holds, in_executable, in_writable, is_executable, is_writable};

use elf_head::PT_LOAD;
use ld_base::{Header, Span};

/// Whether the range lies in the memory of one writable segment. A range of no bytes lies in any.
#[tactic(auto, unfolding(crate::specs::Memory::in_writable))]
pub(crate) fn in_writable(headers: &[Header], span: Span) -> bool
    ensures { result ≡ in_writable headers.now span }
{
    span.size == 0 || has_writable_over(headers, span)
}

/// Whether one writable segment has the range in its memory.
fn has_writable_over(headers: &[Header], span: Span) -> bool
    ensures { result ≡ list_any (λ h. is_writable h && holds span h) headers.now }
{
    headers
        .iter()
        .any(|header| is_writable(header) && holds(span, header))
}

/// Whether the address lies in the memory of an executable segment.
#[tactic(auto, unfolding(crate::specs::Memory::in_executable))]
pub(crate) fn in_executable(headers: &[Header], address: u64) -> bool
    ensures { result ≡ in_executable headers.now address }
{
    let span = Span {
        start: address,
        size: 1,
    };
    headers
        .iter()
        .any(|header| is_executable(header) && holds(span, header))
}

/// Whether the segment is mapped.
pub(crate) fn is_loaded(header: &Header) -> bool
    ensures { result ≡ is_loaded header.now }
{
    header.kind == PT_LOAD && header.memsz > 0
}

/// Whether the segment may be written (PF_W).
pub(crate) fn is_writable(header: &Header) -> bool
    ensures { result ≡ is_writable header.now }
{
    header.flags / 2 % 2 == 1
}

/// Whether the segment may be run (PF_X).
pub(crate) fn is_executable(header: &Header) -> bool
    ensures { result ≡ is_executable header.now }
{
    header.flags % 2 == 1
}

/// Whether the segment is mapped and the range lies in its memory.
fn holds(span: Span, header: &Header) -> bool
    ensures { result ≡ holds span header.now }
{
    is_loaded(header)
        && header.vaddr <= span.start
        && span.start - header.vaddr <= header.memsz
        && span.size <= header.memsz - (span.start - header.vaddr)
}
