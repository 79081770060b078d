//! The entries of the dynamic table, and the segments, before anything has an address.

ghost use Rattle.std.specs.Prelude.{◌≡◌, ◌++◌, ◌||◌, OnOk, IfOk, count_by};
ghost use Rattle.asm_write.specs.Sizes.{tells_number, tells_start, tells_size, where_some, name_entries, symbol_entries, flag_entries};
ghost use Rattle.asm_write.specs.Sizes.{is_listed, is_packed, array_entries, arrays_entries, reloc_entries, version_entries, dynamic_entries, count_in};
ghost use Rattle.asm_write.specs.Sizes.{has_listed, has_packed, has_run, has_written, has_tls, segment_if, segments_of};

use crate::contents::{Contents, Fix, Way};
use crate::entries::{DynamicEntry, SegmentKind, Told};
use crate::part::Part;
use elf_head::{
    DT_FINI_ARRAY, DT_FINI_ARRAYSZ, DT_FLAGS, DT_FLAGS_1, DT_GNU_HASH, DT_HASH, DT_INIT_ARRAY,
    DT_INIT_ARRAYSZ, DT_JMPREL, DT_NEEDED, DT_NULL, DT_PLTGOT, DT_PLTREL, DT_PLTRELSZ,
    DT_PREINIT_ARRAY, DT_PREINIT_ARRAYSZ, DT_RELA, DT_RELAENT, DT_RELASZ, DT_RELR, DT_RELRENT,
    DT_RELRSZ, DT_SONAME, DT_STRSZ, DT_STRTAB, DT_SYMENT, DT_SYMTAB, DT_VERDEF, DT_VERDEFNUM,
    DT_VERNEED, DT_VERNEEDNUM, DT_VERSYM,
};
use ld_base::{ObjFlags, Sequence};
use std::alloc::{AllocError, Global};

type Entries = Sequence<DynamicEntry>;

fn number(tag: u64, number: u64) -> DynamicEntry
    ensures { result ≡ tells_number tag number }
{
    DynamicEntry {
        tag,
        told: Told::Number(number),
    }
}

fn start(tag: u64, part: Part) -> DynamicEntry
    ensures { result ≡ tells_start tag part }
{
    DynamicEntry {
        tag,
        told: Told::Start(part),
    }
}

fn size(tag: u64, part: Part) -> DynamicEntry
    ensures { result ≡ tells_size tag part }
{
    DynamicEntry {
        tag,
        told: Told::Size(part),
    }
}

fn is_listed(way: Way) -> bool
    ensures { result ≡ is_listed way }
{
    matches!(way, Way::Listed)
}

pub(crate) fn is_packed(way: Way) -> bool
    ensures { result ≡ is_packed way }
{
    matches!(way, Way::Packed)
}

/// How many places are listed.
pub(crate) fn listed_count(fixes: &[Fix]) -> usize
    ensures { result ≡ count_by has_listed fixes.now }
{
    fixes.iter().filter(|fix| is_listed(fix.way)).count()
}

/// How many places are packed.
pub(crate) fn packed_count(fixes: &[Fix]) -> usize
    ensures { result ≡ count_by has_packed fixes.now }
{
    fixes.iter().filter(|fix| is_packed(fix.way)).count()
}

/// How many places stand in a part.
pub(crate) fn count_in(contents: &Contents, part: Part) -> usize
    ensures { result ≡ count_in contents.now part }
{
    let number = part.number();
    contents
        .fixes
        .as_slice()
        .iter()
        .filter(|fix| number == fix.spot.part.number())
        .count()
}

/// Appends entries, if they are to be there.
fn push_where(
    entries: &mut Entries,
    is_there: bool,
    added: &[DynamicEntry],
) -> Result<(), AllocError>
    ensures { OnOk result (entries.new ≡ entries.old ++ where_some is_there added.now) }
{
    if is_there {
        entries.extend_from_slice(added)
    } else {
        Ok(())
    }
}

/// Appends the entries of the libraries that are needed, and of the object's own name.
fn push_names(entries: &mut Entries, contents: &Contents) -> Result<(), AllocError>
    ensures { OnOk result (entries.new ≡ entries.old ++ name_entries contents.now) }
{
    for name in contents.needed.as_slice() {
        entries.push(number(DT_NEEDED, u64::from(*name)))?;
    }
    if let Some(name) = contents.soname {
        entries.push(number(DT_SONAME, u64::from(name)))?;
    }
    Ok(())
}

/// Appends the entries of the hash tables, the strings and the symbols.
fn push_symbols(entries: &mut Entries, contents: &Contents) -> Result<(), AllocError>
    ensures { OnOk result (entries.new ≡ entries.old ++ symbol_entries contents.now) }
{
    push_where(
        entries,
        contents.gnu.is_some(),
        &[start(DT_GNU_HASH, Part::GnuHash)],
    )?;
    push_where(
        entries,
        contents.sysv.is_some(),
        &[start(DT_HASH, Part::SysvHash)],
    )?;
    entries.extend_from_slice(&[
        start(DT_STRTAB, Part::Strings),
        size(DT_STRSZ, Part::Strings),
        start(DT_SYMTAB, Part::Symbols),
        number(DT_SYMENT, 24),
    ])
}

/// Appends the entries of the flags.
fn push_flags(entries: &mut Entries, flags: ObjFlags) -> Result<(), AllocError>
    ensures { OnOk result (entries.new ≡ entries.old ++ flag_entries flags) }
{
    let bits = 2 * u64::from(flags.symbolic) + 8 * u64::from(flags.bind_now);
    push_where(
        entries,
        flags.symbolic || flags.bind_now,
        &[number(DT_FLAGS, bits)],
    )?;
    push_where(entries, flags.nodelete, &[number(DT_FLAGS_1, 8)])
}

/// Appends the entries of an array of functions.
fn push_array(
    entries: &mut Entries,
    contents: &Contents,
    part: Part,
    start_tag: u64,
    size_tag: u64,
) -> Result<(), AllocError>
    ensures { OnOk result (entries.new ≡ entries.old ++ array_entries contents.now part start_tag size_tag) }
{
    push_where(
        entries,
        0 < count_in(contents, part),
        &[start(start_tag, part), size(size_tag, part)],
    )
}

/// Appends the entries of the relocations.
fn push_relocs(entries: &mut Entries, contents: &Contents) -> Result<(), AllocError>
    ensures { OnOk result (entries.new ≡ entries.old ++ reloc_entries contents.now) }
{
    let fixes = contents.fixes.as_slice();
    push_where(
        entries,
        0 < listed_count(fixes),
        &[
            start(DT_RELA, Part::Rela),
            size(DT_RELASZ, Part::Rela),
            number(DT_RELAENT, 24),
        ],
    )?;
    push_where(
        entries,
        0 < packed_count(fixes),
        &[
            start(DT_RELR, Part::Relr),
            size(DT_RELRSZ, Part::Relr),
            number(DT_RELRENT, 8),
        ],
    )?;
    push_where(
        entries,
        0 < contents.slots.len(),
        &[
            start(DT_JMPREL, Part::Jmprel),
            size(DT_PLTRELSZ, Part::Jmprel),
            number(DT_PLTREL, 7),
            start(DT_PLTGOT, Part::GotPlt),
        ],
    )
}

/// Appends the entries of the versions.
fn push_versions(entries: &mut Entries, contents: &Contents) -> Result<(), AllocError>
    ensures { OnOk result (entries.new ≡ entries.old ++ version_entries contents.now) }
{
    let versions = contents.versions.len();
    let files = contents.files.len();
    push_where(
        entries,
        contents.has_versions,
        &[start(DT_VERSYM, Part::Versym)],
    )?;
    push_where(
        entries,
        0 < versions,
        &[
            start(DT_VERDEF, Part::Verdef),
            number(DT_VERDEFNUM, versions as u64),
        ],
    )?;
    push_where(
        entries,
        0 < files,
        &[
            start(DT_VERNEED, Part::Verneed),
            number(DT_VERNEEDNUM, files as u64),
        ],
    )
}

/// Appends the entries of the arrays of functions.
fn push_arrays(entries: &mut Entries, contents: &Contents) -> Result<(), AllocError>
    ensures { OnOk result (entries.new ≡ entries.old ++ arrays_entries contents.now) }
{
    push_array(
        entries,
        contents,
        Part::PreinitArray,
        DT_PREINIT_ARRAY,
        DT_PREINIT_ARRAYSZ,
    )?;
    push_array(
        entries,
        contents,
        Part::InitArray,
        DT_INIT_ARRAY,
        DT_INIT_ARRAYSZ,
    )?;
    push_array(
        entries,
        contents,
        Part::FiniArray,
        DT_FINI_ARRAY,
        DT_FINI_ARRAYSZ,
    )
}

/// The dynamic table, with the entry that ends it.
#[tactic(auto, unfolding(crate::specs::Sizes::dynamic_entries))]
pub(crate) fn dynamic_entries(alloc: Global, contents: &Contents) -> Result<Entries, AllocError>
    ensures { IfOk result (λ entries. entries ≡ dynamic_entries contents.now) }
{
    let mut entries = Sequence::new(alloc);
    push_names(&mut entries, contents)?;
    push_symbols(&mut entries, contents)?;
    push_flags(&mut entries, contents.flags)?;
    push_arrays(&mut entries, contents)?;
    push_relocs(&mut entries, contents)?;
    push_versions(&mut entries, contents)?;
    entries.push(number(DT_NULL, 0))?;
    Ok(entries)
}

fn has_run(contents: &Contents) -> bool
    ensures { result ≡ has_run contents.now }
{
    0 < contents.slots.len() || 0 < contents.sections.text.size
}

fn has_written(contents: &Contents) -> bool
    ensures { result ≡ has_written contents.now }
{
    0 < contents.slots.len() || 0 < contents.sections.data.size || 0 < contents.sections.bss.size
}

fn has_tls(contents: &Contents) -> bool
    ensures { result ≡ has_tls contents.now }
{
    0 < contents.sections.tdata.size || 0 < contents.sections.tbss.size
}

/// Appends a segment, if it isn't empty.
fn push_segment(
    segments: &mut Sequence<SegmentKind>,
    is_there: bool,
    segment: SegmentKind,
) -> Result<(), AllocError>
    ensures { OnOk result (segments.new ≡ segments.old ++ segment_if is_there segment) }
{
    if is_there {
        segments.push(segment)
    } else {
        Ok(())
    }
}

/// What the program headers are about.
#[tactic(auto, unfolding(crate::specs::Sizes::segments_of))]
pub(crate) fn segments_of(
    alloc: Global,
    contents: &Contents,
) -> Result<Sequence<SegmentKind>, AllocError>
    ensures { IfOk result (λ segments. segments ≡ segments_of contents.now) }
{
    let mut segments = Sequence::new(alloc);
    segments.push(SegmentKind::Read)?;
    push_segment(&mut segments, has_run(contents), SegmentKind::Run)?;
    segments.push(SegmentKind::Relocated)?;
    push_segment(&mut segments, has_written(contents), SegmentKind::Written)?;
    segments.push(SegmentKind::Dynamic)?;
    push_segment(&mut segments, has_tls(contents), SegmentKind::Tls)?;
    segments.push(SegmentKind::Relro)?;
    Ok(segments)
}
