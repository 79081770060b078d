//! How many bytes the parts of an object have, and what their starts are multiples of.

ghost use Rattle.std.specs.Prelude.{◌≡◌, ◌<◌, ◌^◌, IfOk, IfSome, length, map, Some};
ghost use Rattle.std.specs.Option.{option_map_or};
ghost use Rattle.asm_write.specs.Sizes.{gnu_size, sysv_size, versym_size, plt_size, got_plt_size, plain_size, segments_of, dynamic_entries};
ghost use Rattle.asm_write.specs.Starts.{tls_start_align, align_of, plain_extent};

use crate::contents::{Contents, Extent, Sections};
use crate::dynamic::{count_in, dynamic_entries, listed_count, segments_of};
use crate::part::Part;
use ld_base::{GnuPart, SysvPart};
use std::alloc::{AllocError, Global};

/// The bytes of a page.
const PAGE: u64 = 4096;

/// What the start of `.tdata` is a multiple of; an empty one stands where `.tbss` may begin.
fn tls_start_align(sections: &Sections) -> u64
    ensures { result ≡ tls_start_align sections.now }
{
    if sections.tdata.size == 0 {
        sections.tdata.align.max(sections.tbss.align)
    } else {
        sections.tdata.align
    }
}

/// What the start of a part is a multiple of.
#[tactic(auto, unfolding(crate::specs::Starts::align_of))]
fn align_of(contents: &Contents, part: Part) -> u64
    ensures { result ≡ align_of contents.now part }
{
    match part {
        Part::Plt | Part::Dynamic | Part::GotPlt => PAGE,
        Part::Rodata => contents.sections.rodata.align,
        Part::Text => contents.sections.text.align,
        Part::Relro => contents.sections.relro.align,
        Part::Tdata => tls_start_align(&contents.sections),
        Part::Tbss => contents.sections.tbss.align,
        Part::Data => contents.sections.data.align,
        Part::Bss => contents.sections.bss.align,
        Part::Head
        | Part::GnuHash
        | Part::SysvHash
        | Part::Symbols
        | Part::Strings
        | Part::Versym
        | Part::Verdef
        | Part::Verneed
        | Part::Rela
        | Part::Relr
        | Part::Jmprel
        | Part::Got
        | Part::PreinitArray
        | Part::InitArray
        | Part::FiniArray => 8,
    }
}

fn gnu_size(gnu: &Option<GnuPart>) -> u128
    ensures { result ≡ option_map_or gnu_size gnu.now 0 }
{
    match gnu {
        None => 0,
        Some(gnu) => {
            16 + 8 * gnu.bloom.len() as u128
                + 4 * gnu.buckets.len() as u128
                + 4 * gnu.chain.len() as u128
        }
    }
}

fn sysv_size(sysv: &Option<SysvPart>) -> u128
    ensures { result ≡ option_map_or sysv_size sysv.now 0 }
{
    match sysv {
        None => 0,
        Some(sysv) => 8 + 4 * sysv.buckets.len() as u128 + 4 * sysv.chain.len() as u128,
    }
}

fn versym_size(contents: &Contents) -> u128
    ensures { result ≡ versym_size contents.now }
{
    if contents.has_versions {
        2 * (1 + contents.symbols.len() as u128)
    } else {
        0
    }
}

fn plt_size(slots: usize) -> u128
    ensures { result ≡ plt_size slots }
{
    if 0 < slots {
        32 + 16 * slots as u128
    } else {
        0
    }
}

fn got_plt_size(slots: usize) -> u128
    ensures { result ≡ got_plt_size slots }
{
    if 0 < slots { 16 + 8 * slots as u128 } else { 0 }
}

/// How many bytes a part has, but for the packed relocations.
#[tactic(auto, unfolding(crate::specs::Sizes::plain_size))]
fn table_size(contents: &Contents, part: Part, segments: usize, entries: usize) -> u128
    requires segments { segments ≡ length (segments_of contents.now) }
    requires entries { entries ≡ length (dynamic_entries contents.now) }
    ensures { result ≡ plain_size contents.now part }
{
    let sections = &contents.sections;
    match part {
        Part::Head => 64 + 56 * segments as u128,
        Part::GnuHash => gnu_size(&contents.gnu),
        Part::SysvHash => sysv_size(&contents.sysv),
        Part::Symbols => 24 * (1 + contents.symbols.len() as u128),
        Part::Strings => contents.strings.len() as u128,
        Part::Versym => versym_size(contents),
        Part::Verdef => 28 * contents.versions.len() as u128,
        Part::Verneed => {
            16 * contents.files.len() as u128 + 16 * contents.needed_versions.len() as u128
        }
        Part::Rela => 24 * listed_count(contents.fixes.as_slice()) as u128,
        Part::Jmprel => 24 * contents.slots.len() as u128,
        Part::Plt => plt_size(contents.slots.len()),
        Part::Dynamic => 16 * entries as u128,
        Part::Got | Part::PreinitArray | Part::InitArray | Part::FiniArray => {
            8 * count_in(contents, part) as u128
        }
        Part::GotPlt => got_plt_size(contents.slots.len()),
        Part::Rodata => u128::from(sections.rodata.size),
        Part::Text => u128::from(sections.text.size),
        Part::Relro => u128::from(sections.relro.size),
        Part::Tdata => u128::from(sections.tdata.size),
        Part::Data => u128::from(sections.data.size),
        Part::Bss => u128::from(sections.bss.size),
        Part::Relr | Part::Tbss => 0,
    }
}

/// The extent of a part; None where it has 2^64 bytes or more.
fn plain_extent(contents: &Contents, part: Part, segments: usize, entries: usize) -> Option<Extent>
    requires segments { segments ≡ length (segments_of contents.now) }
    requires entries { entries ≡ length (dynamic_entries contents.now) }
    ensures { IfSome result (λ extent. extent ≡ plain_extent contents.now part) }
{
    let size = table_size(contents, part, segments, entries);
    match u64::try_from(size) {
        Ok(size) => Some(Extent {
            size,
            align: align_of(contents, part),
        }),
        Err(_) => None,
    }
}

/// The extents of these parts. Want of memory is told where one has 2^64 bytes or more, too.
pub(crate) fn plain_extents(
    alloc: Global,
    contents: &Contents,
    parts: &[Part],
) -> Result<Vec<Extent>, AllocError>
    ensures { IfOk result (λ extents. extents.items ≡ map (plain_extent contents.now) parts.now) }
{
    let segments = segments_of(alloc, contents)?.len();
    let entries = dynamic_entries(alloc, contents)?.len();
    let mut extents = Vec::new(alloc);
    for part in parts {
        let Some(extent) = plain_extent(contents, *part, segments, entries) else {
            return Err(AllocError);
        };
        extents.push(extent)?;
    }
    Ok(extents)
}
