//! Which tables an object has to have, and where (rules 11 and 12).

ghost use Rattle.std.specs.Prelude.{◌≡◌, ◌==◌, ◌||◌, ◌&&◌, ◌*◌, ◌%◌, ◌<◌, ◌^◌, not, true, false};
ghost use Rattle.elf_dynamic.specs.Rules.{bad_table, has_bad_array, has_bad_gnu_hash, has_bad_hash, has_bad_jmprel, has_bad_rela};
ghost use Rattle.elf_dynamic.specs.Rules.{has_bad_relr, has_bad_strings, has_bad_symbols, has_entries, is_readable, lacks_count};
ghost use Rattle.elf_dynamic.specs.Rules.{lacks_symbols};

use crate::tables::{rela_span, span_of};
use elf_head::{
    DT_FINI_ARRAY, DT_FINI_ARRAYSZ, DT_GNU_HASH, DT_HASH, DT_INIT_ARRAY, DT_INIT_ARRAYSZ,
    DT_JMPREL, DT_PLTGOT, DT_PLTREL, DT_PLTRELSZ, DT_PREINIT_ARRAY, DT_PREINIT_ARRAYSZ, DT_RELA,
    DT_RELAENT, DT_RELASZ, DT_RELR, DT_RELRENT, DT_RELRSZ, DT_STRSZ, DT_STRTAB, DT_SYMENT,
    DT_SYMTAB, DT_VERDEF, DT_VERDEFNUM, DT_VERNEED, DT_VERNEEDNUM, RELOC_SIZE, SYMBOL_SIZE, has,
    is_readable, string_at, value_of,
};
use ld_base::{HashTable, Header, Span, Tag};

/// The bytes of an address, and of a word of packed relocations.
const WORD_SIZE: u64 = 8;

/// Whether the range has bytes in the file.
fn is_in_file(headers: &[Header], span: Span) -> bool
    ensures { result ≡ is_readable headers.now span }
{
    is_readable(headers, span.start, span.size)
}

/// Whether a tag tells this size of entries, and a range is made of them.
fn has_entries(tags: &[Tag], entry: u64, size: u64, span: Span) -> bool
    requires { 0 < size }
    ensures { result ≡ has_entries tags.now entry size span }
{
    value_of(tags, entry) == size && span.size % size == 0
}

/// Whether an address stands without its size.
fn lacks(tags: &[Tag], address: u64, size: u64) -> bool
    ensures { result ≡ lacks_count tags.now address size }
{
    has(tags, address) && !has(tags, size)
}

/// Whether neither hash table is there, or the System V table isn't whole.
fn has_bad_hash(words: &HashTable, tags: &[Tag]) -> bool
    ensures { result ≡ has_bad_hash words.now tags.now }
{
    if !has(tags, DT_HASH) {
        return !has(tags, DT_GNU_HASH);
    }
    match &words.sysv {
        Some(sysv) => sysv.buckets.is_empty(),
        None => true,
    }
}

/// Whether the GNU hash table isn't whole.
fn has_bad_gnu_hash(words: &HashTable, tags: &[Tag]) -> bool
    ensures { result ≡ has_bad_gnu_hash words.now tags.now }
{
    if !has(tags, DT_GNU_HASH) {
        return false;
    }
    match &words.gnu {
        Some(gnu) => gnu.buckets.is_empty() || gnu.bloom.is_empty(),
        None => true,
    }
}

fn has_bad_strings(headers: &[Header], tags: &[Tag]) -> bool
    ensures { result ≡ has_bad_strings headers.now tags.now }
{
    match span_of(tags, DT_STRTAB, DT_STRSZ) {
        Some(strings) => !is_in_file(headers, strings),
        None => true,
    }
}

fn has_bad_symbols(tags: &[Tag]) -> bool
    ensures { result ≡ has_bad_symbols tags.now }
{
    !has(tags, DT_SYMTAB) || value_of(tags, DT_SYMENT) != SYMBOL_SIZE
}

fn has_bad_rela(headers: &[Header], tags: &[Tag]) -> bool
    ensures { result ≡ has_bad_rela headers.now tags.now }
{
    if lacks(tags, DT_RELA, DT_RELASZ) {
        return true;
    }
    match rela_span(tags) {
        Some(rela) => {
            !has_entries(tags, DT_RELAENT, RELOC_SIZE, rela) || !is_in_file(headers, rela)
        }
        None => false,
    }
}

fn has_bad_jmprel(headers: &[Header], tags: &[Tag]) -> bool
    ensures { result ≡ has_bad_jmprel headers.now tags.now }
{
    if lacks(tags, DT_JMPREL, DT_PLTRELSZ) {
        return true;
    }
    match span_of(tags, DT_JMPREL, DT_PLTRELSZ) {
        Some(slots) => {
            value_of(tags, DT_PLTREL) != DT_RELA
                || !has(tags, DT_PLTGOT)
                || slots.size % RELOC_SIZE != 0
                || !is_in_file(headers, slots)
        }
        None => false,
    }
}

fn has_bad_relr(headers: &[Header], tags: &[Tag]) -> bool
    ensures { result ≡ has_bad_relr headers.now tags.now }
{
    if lacks(tags, DT_RELR, DT_RELRSZ) {
        return true;
    }
    match span_of(tags, DT_RELR, DT_RELRSZ) {
        Some(relr) => {
            !has_entries(tags, DT_RELRENT, WORD_SIZE, relr) || !is_in_file(headers, relr)
        }
        None => false,
    }
}

/// Whether an array of functions isn't one of doublewords at a multiple of 8 in the file.
fn has_bad_array(headers: &[Header], tags: &[Tag], address: u64, size: u64) -> bool
    ensures { result ≡ has_bad_array headers.now tags.now address size }
{
    if lacks(tags, address, size) {
        return true;
    }
    match span_of(tags, address, size) {
        Some(array) => {
            array.size % WORD_SIZE != 0
                || array.start % WORD_SIZE != 0
                || !is_in_file(headers, array)
        }
        None => false,
    }
}

/// Whether there are no symbols, or not all of so many in the file.
fn lacks_symbols(headers: &[Header], tags: &[Tag], count: u64) -> bool
    requires { 24 * count < 2 ^ 64 }
    ensures { result ≡ lacks_symbols headers.now tags.now count }
{
    count == 0 || !is_readable(headers, value_of(tags, DT_SYMTAB), SYMBOL_SIZE * count)
}

/// The first tag whose table is bad, in ascending order of tags; the symbols, of which there are so
/// many, come last.
#[tactic(auto, unfolding(crate::specs::Rules::bad_table))]
pub(crate) fn bad_table(
    headers: &[Header],
    tags: &[Tag],
    words: &HashTable,
    count: u64,
) -> Option<u64>
    requires { 24 * count < 2 ^ 64 }
    ensures { result ≡ bad_table headers.now tags.now words.now count }
{
    let tag = if has_bad_hash(words, tags) {
        DT_HASH
    } else if has_bad_strings(headers, tags) {
        DT_STRTAB
    } else if has_bad_symbols(tags) {
        DT_SYMTAB
    } else if has_bad_rela(headers, tags) {
        DT_RELA
    } else if has_bad_jmprel(headers, tags) {
        DT_JMPREL
    } else if has_bad_array(headers, tags, DT_INIT_ARRAY, DT_INIT_ARRAYSZ) {
        DT_INIT_ARRAY
    } else if has_bad_array(headers, tags, DT_FINI_ARRAY, DT_FINI_ARRAYSZ) {
        DT_FINI_ARRAY
    } else if has_bad_array(headers, tags, DT_PREINIT_ARRAY, DT_PREINIT_ARRAYSZ) {
        DT_PREINIT_ARRAY
    } else if has_bad_relr(headers, tags) {
        DT_RELR
    } else if has_bad_gnu_hash(words, tags) {
        DT_GNU_HASH
    } else if lacks(tags, DT_VERDEF, DT_VERDEFNUM) {
        DT_VERDEF
    } else if lacks(tags, DT_VERNEED, DT_VERNEEDNUM) {
        DT_VERNEED
    } else if lacks_symbols(headers, tags, count) {
        DT_SYMTAB
    } else {
        return None;
    };
    Some(tag)
}
