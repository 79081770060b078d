//! Segments of an object (gABI, "Program Header" and "Program Loading").

ghost use Rattle.std.specs.Prelude.{◌≡◌, ◌++◌, ◌+◌, ◌≤◌, ◌<◌, ◌∷◌, [], Ok, OnOk, IfOk, length, if◌then◌else◌, IsTrue};
ghost use Rattle.elf_head.specs.Header.{is_loaded};
ghost use Rattle.elf_head.specs.Rules.{head_verdict};
ghost use Rattle.elf_object.specs.Segments.{dynamic_of, relro_of, segment_at, segments_of, tls_of};

use elf_head::{PT_DYNAMIC, PT_GNU_RELRO, PT_LOAD, PT_TLS, accepted_head};
use ld_base::{Head, Header, Segment, Segments, SharedBytes, Span, TlsSeg};
use std::alloc::{AllocError, Global};

/// Whether the header's segment is mapped.
fn is_loaded(header: &Header) -> bool
    ensures { result ≡ is_loaded header.now }
{
    header.kind == PT_LOAD && header.memsz > 0
}

/// The segment of a header, with its bytes in the memory of the file.
#[tactic(auto, unfolding(crate::specs::Segments::segment_at))]
fn segment_at(file: &SharedBytes, header: &Header) -> Result<Segment, AllocError>
    requires { 0 < header.now.filesz → header.now.offset + header.now.filesz ≤ length file.now }
    ensures { IfOk result (λ segment. segment ≡ segment_at file.now header.now) }
{
    // A file has fewer than 2^63 bytes, so that the end of the range is an index.
    let _size = file.len();
    let bytes = if header.filesz == 0 {
        SharedBytes::new()
    } else {
        file.slice(header.offset as usize..(header.offset + header.filesz) as usize)?
    };
    Ok(Segment {
        vaddr: header.vaddr,
        memsz: header.memsz,
        flags: header.flags,
        align: header.align,
        bytes,
    })
}

/// Puts the header's segment at the end, if it is mapped.
fn push_segment(
    segments: &mut Segments,
    file: &SharedBytes,
    header: &Header,
) -> Result<(), AllocError>
    requires { IsTrue (is_loaded header.now) → 0 < header.now.filesz → header.now.offset + header.now.filesz ≤ length file.now }
    ensures { OnOk result (segments.new ≡ segments.old ++ (if is_loaded header.now then segment_at file.now header.now ∷ [] else [])) }
{
    if is_loaded(header) {
        segments.push(segment_at(file, header)?)?;
    }
    Ok(())
}

/// The segments that are mapped, in order.
#[tactic(auto, unfolding(crate::specs::Segments::segments_of))]
pub(crate) fn read_segments(
    alloc: Global,
    file: &SharedBytes,
    head: &Head,
) -> Result<Segments, AllocError>
    requires { head_verdict file.now ≡ Ok head.now }
    ensures { IfOk result (λ segments. segments ≡ segments_of file.now head.now.headers) }
{
    accepted_head();
    let mut segments = Segments::new(alloc);
    for header in head.headers.as_slice() {
        push_segment(&mut segments, file, header)?;
    }
    Ok(segments)
}

/// The range that is read-only once it is relocated: the last one that is named.
#[tactic(auto, unfolding(crate::specs::Segments::relro_of))]
pub(crate) fn relro_of(headers: &[Header]) -> Option<Span>
    ensures { result ≡ relro_of headers.now }
{
    headers
        .iter()
        .rev()
        .find(|header| header.kind == PT_GNU_RELRO)
        .map(|header| Span {
            start: header.vaddr,
            size: header.memsz,
        })
}

/// The segment from which each thread's block is made.
#[tactic(auto, unfolding(crate::specs::Segments::tls_of))]
pub(crate) fn tls_of(headers: &[Header]) -> Option<TlsSeg>
    ensures { result ≡ tls_of headers.now }
{
    headers
        .iter()
        .find(|header| header.kind == PT_TLS)
        .map(|header| TlsSeg {
            vaddr: header.vaddr,
            filesz: header.filesz,
            memsz: header.memsz,
            align: header.align,
        })
}

/// The address of the dynamic table.
#[tactic(auto, unfolding(crate::specs::Segments::dynamic_of))]
pub(crate) fn dynamic_of(headers: &[Header]) -> u64
    ensures { result ≡ dynamic_of headers.now }
{
    headers
        .iter()
        .find(|header| header.kind == PT_DYNAMIC)
        .map(|header| header.vaddr)
        .unwrap_or(0)
}
