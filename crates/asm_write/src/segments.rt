//! Program headers.

ghost use Rattle.std.specs.Prelude.{◌≡◌, ◌*◌};
ghost use Rattle.asm_write.specs.Records.{header_type, header_flags, first_part, end_behind, end_of, file_end, file_size};
ghost use Rattle.asm_write.specs.Records.{block_end, page_end, memory_end, header_align, header_of};
ghost use Rattle.asm_write.specs.Starts.{padding};

use crate::contents::Sections;
use crate::entries::SegmentKind;
use crate::part::Part;
use crate::starts::Starts;
use ld_base::Header;

/// The bytes of a page.
const PAGE: u64 = 4096;

fn header_type(segment: SegmentKind) -> u32
    ensures { result ≡ header_type segment }
{
    match segment {
        SegmentKind::Read | SegmentKind::Run | SegmentKind::Relocated | SegmentKind::Written => 1,
        SegmentKind::Dynamic => 2,
        SegmentKind::Tls => 7,
        SegmentKind::Relro => 0x6474_e552,
    }
}

fn header_flags(segment: SegmentKind) -> u32
    ensures { result ≡ header_flags segment }
{
    match segment {
        SegmentKind::Read | SegmentKind::Tls | SegmentKind::Relro => 4,
        SegmentKind::Run => 5,
        SegmentKind::Relocated | SegmentKind::Written | SegmentKind::Dynamic => 6,
    }
}

fn first_part(segment: SegmentKind) -> Part
    ensures { result ≡ first_part segment }
{
    match segment {
        SegmentKind::Read => Part::Head,
        SegmentKind::Run => Part::Plt,
        SegmentKind::Relocated | SegmentKind::Dynamic | SegmentKind::Relro => Part::Dynamic,
        SegmentKind::Written => Part::GotPlt,
        SegmentKind::Tls => Part::Tdata,
    }
}

/// Where a part ends, or what stands before it where it is empty.
fn end_behind(starts: &Starts, end: u64, part: Part) -> u64
    ensures { result ≡ end_behind starts.now end part }
{
    if starts.size(part) == 0 {
        end
    } else {
        starts.part(part).wrapping_add(starts.size(part))
    }
}

/// Where the last of these parts that isn't empty ends.
fn end_of(starts: &Starts, start: u64, parts: &[Part]) -> u64
    ensures { result ≡ end_of starts.now start parts.now }
{
    parts
        .iter()
        .fold(start, |end, part| end_behind(starts, end, *part))
}

/// Where the bytes of a segment end in the file.
fn file_end(starts: &Starts, segment: SegmentKind) -> u64
    ensures { result ≡ file_end starts.now segment }
{
    let start = starts.part(first_part(segment));
    match segment {
        SegmentKind::Read => end_of(
            starts,
            start,
            &[
                Part::Head,
                Part::GnuHash,
                Part::SysvHash,
                Part::Symbols,
                Part::Strings,
                Part::Versym,
                Part::Verdef,
                Part::Verneed,
                Part::Rela,
                Part::Relr,
                Part::Jmprel,
                Part::Rodata,
            ],
        ),
        SegmentKind::Run => end_of(starts, start, &[Part::Plt, Part::Text]),
        SegmentKind::Relocated | SegmentKind::Relro => end_of(
            starts,
            start,
            &[
                Part::Dynamic,
                Part::Got,
                Part::PreinitArray,
                Part::InitArray,
                Part::FiniArray,
                Part::Relro,
                Part::Tdata,
            ],
        ),
        SegmentKind::Written => end_of(starts, start, &[Part::GotPlt, Part::Data]),
        SegmentKind::Dynamic => end_of(starts, start, &[Part::Dynamic]),
        SegmentKind::Tls => end_of(starts, start, &[Part::Tdata]),
    }
}

/// The parts that have bytes of the file.
const FILE_PARTS: [Part; 23] = [
    Part::Head,
    Part::GnuHash,
    Part::SysvHash,
    Part::Symbols,
    Part::Strings,
    Part::Versym,
    Part::Verdef,
    Part::Verneed,
    Part::Rela,
    Part::Relr,
    Part::Jmprel,
    Part::Rodata,
    Part::Plt,
    Part::Text,
    Part::Dynamic,
    Part::Got,
    Part::PreinitArray,
    Part::InitArray,
    Part::FiniArray,
    Part::Relro,
    Part::Tdata,
    Part::GotPlt,
    Part::Data,
];

/// How many bytes the file of an object has whose parts start so.
#[tactic(auto, unfolding(crate::specs::Records::file_size))]
pub fn file_size(starts: &Starts) -> u64
    ensures { result ≡ file_size starts.now }
{
    let start = starts.part(Part::Head);
    end_of(starts, start, &FILE_PARTS).saturating_sub(start)
}

/// Where a thread's block ends.
fn block_end(starts: &Starts, sections: &Sections) -> u64
    ensures { result ≡ block_end starts.now sections.now }
{
    if sections.tbss.size == 0 {
        starts.part(Part::Tdata).wrapping_add(sections.tdata.size)
    } else {
        starts.part(Part::Tbss).wrapping_add(sections.tbss.size)
    }
}

/// Where the page of an address ends; the address itself where a page begins there.
fn page_end(address: u64) -> u64
    ensures { result ≡ page_end address }
{
    let padding = (PAGE - address % PAGE) % PAGE;
    address.wrapping_add(padding)
}

/// Where the memory of a segment ends.
fn memory_end(starts: &Starts, sections: &Sections, segment: SegmentKind) -> u64
    ensures { result ≡ memory_end starts.now sections.now segment }
{
    let end = file_end(starts, segment);
    match segment {
        SegmentKind::Read | SegmentKind::Run | SegmentKind::Relocated | SegmentKind::Dynamic => end,
        SegmentKind::Written => end_of(starts, end, &[Part::Bss]),
        SegmentKind::Tls => block_end(starts, sections),
        SegmentKind::Relro => page_end(end),
    }
}

fn header_align(sections: &Sections, segment: SegmentKind) -> u64
    ensures { result ≡ header_align sections.now segment }
{
    match segment {
        SegmentKind::Read | SegmentKind::Run | SegmentKind::Relocated | SegmentKind::Written =>
            PAGE,
        SegmentKind::Dynamic => 8,
        SegmentKind::Tls => sections.tdata.align.max(sections.tbss.align),
        SegmentKind::Relro => 1,
    }
}

/// The header of a segment.
#[tactic(auto, unfolding(crate::specs::Records::header_of))]
pub(crate) fn header_of(starts: &Starts, sections: &Sections, segment: SegmentKind) -> Header
    ensures { result ≡ header_of starts.now sections.now segment }
{
    let start = starts.part(first_part(segment));
    Header {
        kind: header_type(segment),
        flags: header_flags(segment),
        offset: start.saturating_sub(starts.part(Part::Head)),
        vaddr: start,
        filesz: file_end(starts, segment).saturating_sub(start),
        memsz: memory_end(starts, sections, segment).saturating_sub(start),
        align: header_align(sections, segment),
    }
}
