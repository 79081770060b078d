//! Where the tables of an object stand, and what they say (gABI, "Dynamic Section").

ghost use Rattle.std.specs.Prelude.{◌≡◌, ◌==◌, ◌+◌, ◌<◌, ◌^◌, Ok, Some, IfOk, IfSome, find, fold, length, max};
ghost use Rattle.std.specs.Option.{option_copied};
ghost use Rattle.elf_head.specs.Rules.{head_verdict};
ghost use Rattle.ld_base.specs.declared.object.Reloc.{Reloc};
ghost use Rattle.elf_dynamic.specs.Tables.{bytes_in, dynamic_tags, flags_of, first_exported, is_tail, less_tail, named_count, plt_span, rela_span, span_of};
ghost use Rattle.elf_dynamic.specs.Tables.{symbol_count};
ghost use Rattle.elf_head.specs.DynTable.Tag.{has, has_flag, value_of};

use elf_head::{
    DT_BIND_NOW, DT_FLAGS, DT_FLAGS_1, DT_JMPREL, DT_PLTRELSZ, DT_RELA, DT_RELASZ, DT_SYMBOLIC,
    PT_DYNAMIC, file_bytes, has, has_flag, last_of, read_tags, value_of,
};
use ld_base::{HashTable, Head, Header, ObjFlags, Reloc, Span, Tag, Tags};
use std::alloc::{AllocError, Global};

/// DF_SYMBOLIC, DF_TEXTREL and DF_BIND_NOW of DT_FLAGS.
const DF_SYMBOLIC: u64 = 2;

pub(crate) const DF_TEXTREL: u64 = 4;

const DF_BIND_NOW: u64 = 8;
/// DF_1_NOW and DF_1_NODELETE of DT_FLAGS_1.
const DF_1_NOW: u64 = 1;

const DF_1_NODELETE: u64 = 8;

/// The header of the dynamic table.
fn dynamic_header(headers: &[Header]) -> Option<&Header>
    ensures { option_copied result ≡ find (λ h. h.kind == 2) headers.now }
{
    headers.iter().find(|header| header.kind == PT_DYNAMIC)
}

/// The entries of the dynamic table, where it is in the file and ends.
#[tactic(auto, unfolding(crate::specs::Tables::dynamic_tags))]
pub(crate) fn dynamic_tags(
    alloc: Global,
    bytes: &[u8],
    head: &Head,
) -> Result<Option<Tags>, AllocError>
    requires { head_verdict bytes.now ≡ Ok head.now }
    ensures { IfOk result (λ tags. tags ≡ dynamic_tags bytes.now head.now.headers) }
{
    let Some(header) = dynamic_header(head.headers.as_slice()) else {
        return Ok(None);
    };
    match file_bytes(bytes, head, header.vaddr, header.filesz) {
        Some(table) => read_tags(alloc, table),
        None => Ok(None),
    }
}

/// The range that two tags name, by its address and its size. A range of no bytes counts as not
/// there.
#[tactic(auto, unfolding(crate::specs::Tables::span_of))]
pub(crate) fn span_of(tags: &[Tag], address: u64, size: u64) -> Option<Span>
    ensures { result ≡ span_of tags.now address size }
{
    let start = last_of(tags, address)?;
    let size = value_of(tags, size);
    if size == 0 {
        return None;
    }
    Some(Span { start, size })
}

/// The bytes of a range, none where they aren't in the file.
pub(crate) fn bytes_in<'a>(bytes: &'a [u8], head: &Head, span: Option<Span>) -> &'a [u8]
    requires { head_verdict bytes.now ≡ Ok head.now }
    ensures { result.now ≡ bytes_in bytes.now head.now.headers span }
{
    let Some(span) = span else {
        return &[];
    };
    match file_bytes(bytes, head, span.start, span.size) {
        Some(part) => part,
        None => &[],
    }
}

/// Whether one table is the tail of another.
fn is_tail(plt: Span, rela: Span) -> bool
    ensures { result ≡ is_tail plt rela }
{
    rela.start <= plt.start
        && plt.start - rela.start <= rela.size
        && rela.size - (plt.start - rela.start) == plt.size
}

/// Where the relocations of the slots stand.
pub(crate) fn plt_span(tags: &[Tag]) -> Option<Span>
    ensures { result ≡ plt_span tags.now }
{
    span_of(tags, DT_JMPREL, DT_PLTRELSZ)
}

/// Where the other relocations stand, less those of the slots where those are their tail, as in
/// files of GNU ld.
#[tactic(auto, unfolding(crate::specs::Tables::rela_span))]
pub(crate) fn rela_span(tags: &[Tag]) -> Option<Span>
    ensures { result ≡ rela_span tags.now }
{
    let rela = span_of(tags, DT_RELA, DT_RELASZ)?;
    match plt_span(tags) {
        Some(plt) => less_tail(plt, rela),
        None => Some(rela),
    }
}

/// The table without the tail that another may be, none where nothing is left.
fn less_tail(plt: Span, rela: Span) -> Option<Span>
    ensures { result ≡ less_tail (Some plt) rela }
{
    if !is_tail(plt, rela) {
        return Some(rela);
    }
    if plt.start == rela.start {
        return None;
    }
    Some(Span {
        start: rela.start,
        size: plt.start - rela.start,
    })
}

/// One more than the greatest symbol that a relocation names, or so much from below.
fn named_count(relocs: &[Reloc], least: u64) -> u64
    requires { least < 2 ^ 33 }
    ensures count { result ≡ fold (λ n (r : Reloc). max n (r.symbol + 1)) least relocs.now }
    ensures few { result < 2 ^ 33 }
{
    let mut count = least;
    for reloc in relocs {
        count = count.max(u64::from(reloc.symbol) + 1);
    }
    count
}

/// How many symbols the hash tables and the relocations tell of.
#[tactic(auto, unfolding(crate::specs::Tables::symbol_count))]
pub(crate) fn symbol_count(words: &HashTable, relocs: &[Reloc], slots: &[Reloc]) -> u64
    requires few { IfSome words.now.sysv (λ s. length s.chain < 2 ^ 32) }
    requires short { IfSome words.now.gnu (λ g. length g.chain < 2 ^ 32) }
    ensures count { result ≡ symbol_count words.now relocs.now slots.now }
    ensures few { result < 2 ^ 33 }
{
    if let Some(sysv) = &words.sysv {
        return sysv.chain.len() as u64;
    }
    let named = named_count(slots, named_count(relocs, 0));
    match &words.gnu {
        Some(gnu) => named.max(u64::from(gnu.symoffset) + gnu.chain.len() as u64),
        None => named,
    }
}

/// The least symbol that a hash table may lead to.
pub(crate) fn first_exported(words: &HashTable) -> u32
    ensures { result ≡ first_exported words.now }
{
    match &words.gnu {
        Some(gnu) => gnu.symoffset,
        None => 1,
    }
}

/// The marks of the dynamic table that change how an object is linked.
#[tactic(auto, unfolding(crate::specs::Tables::flags_of))]
pub(crate) fn flags_of(tags: &[Tag]) -> ObjFlags
    ensures { result ≡ flags_of tags.now }
{
    ObjFlags {
        symbolic: has(tags, DT_SYMBOLIC) || has_flag(tags, DT_FLAGS, DF_SYMBOLIC),
        bind_now: has(tags, DT_BIND_NOW)
            || has_flag(tags, DT_FLAGS, DF_BIND_NOW)
            || has_flag(tags, DT_FLAGS_1, DF_1_NOW),
        nodelete: has_flag(tags, DT_FLAGS_1, DF_1_NODELETE),
    }
}
