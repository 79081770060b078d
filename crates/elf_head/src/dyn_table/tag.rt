//! The dynamic table (gABI, "Dynamic Section").

ghost use Rattle.std.specs.Prelude.{◌≡◌, ◌+◌, ◌≤◌, ◌<◌, length, position, IfOk};
ghost use Rattle.elf_head.specs.DynTable.Tag.{has_tag, tag_at, all_tags, tags_of, values_of, last_of, count_of, value_of, has, has_flag};
ghost use Rattle.elf_head.specs.DynTable.TagNumbers.{dt_null};

use ld_base::{Tag, Tags, field64};
use std::alloc::{AllocError, Global};

pub const DT_NULL: u64 = 0;

pub const DT_NEEDED: u64 = 1;

pub const DT_PLTRELSZ: u64 = 2;

pub const DT_PLTGOT: u64 = 3;

pub const DT_HASH: u64 = 4;

pub const DT_STRTAB: u64 = 5;

pub const DT_SYMTAB: u64 = 6;

pub const DT_RELA: u64 = 7;

pub const DT_RELASZ: u64 = 8;

pub const DT_RELAENT: u64 = 9;

pub const DT_STRSZ: u64 = 10;

pub const DT_SYMENT: u64 = 11;

pub const DT_INIT: u64 = 12;

pub const DT_FINI: u64 = 13;

pub const DT_SONAME: u64 = 14;

pub const DT_SYMBOLIC: u64 = 16;

pub const DT_REL: u64 = 17;

pub const DT_PLTREL: u64 = 20;

pub const DT_TEXTREL: u64 = 22;

pub const DT_JMPREL: u64 = 23;

pub const DT_BIND_NOW: u64 = 24;

pub const DT_INIT_ARRAY: u64 = 25;

pub const DT_FINI_ARRAY: u64 = 26;

pub const DT_INIT_ARRAYSZ: u64 = 27;

pub const DT_FINI_ARRAYSZ: u64 = 28;

pub const DT_FLAGS: u64 = 30;

pub const DT_PREINIT_ARRAY: u64 = 32;

pub const DT_PREINIT_ARRAYSZ: u64 = 33;

pub const DT_RELRSZ: u64 = 35;

pub const DT_RELR: u64 = 36;

pub const DT_RELRENT: u64 = 37;

pub const DT_GNU_HASH: u64 = 0x6fff_fef5;

pub const DT_VERSYM: u64 = 0x6fff_fff0;

pub const DT_FLAGS_1: u64 = 0x6fff_fffb;

pub const DT_VERDEF: u64 = 0x6fff_fffc;

pub const DT_VERDEFNUM: u64 = 0x6fff_fffd;

pub const DT_VERNEED: u64 = 0x6fff_fffe;

pub const DT_VERNEEDNUM: u64 = 0x6fff_ffff;

/// The bytes of one entry.
const TAG_SIZE: usize = 16;

/// The entry at a place.
#[tactic(auto, unfolding(crate::specs::DynTable::Tag::tag_at))]
fn tag_at(bytes: &[u8], at: usize) -> Tag
    requires { at + 16 ≤ length bytes.now }
    ensures { result ≡ tag_at bytes.now at }
{
    Tag {
        tag: field64(bytes, at),
        value: field64(bytes, at + 8),
    }
}

/// All whole entries of a dynamic table, in order.
#[tactic(auto, unfolding(crate::specs::DynTable::Tag::all_tags))]
fn all_tags(alloc: Global, bytes: &[u8]) -> Result<Vec<Tag>, AllocError>
    ensures { IfOk result (λ tags. tags.items ≡ all_tags bytes.now) }
{
    let count = bytes.len() / TAG_SIZE;
    let mut tags = Vec::with_capacity(alloc, count)?;
    for index in 0..count {
        tags.push(tag_at(bytes, TAG_SIZE * index))?;
    }
    Ok(tags)
}

/// The index of the first NULL entry.
fn first_null(tags: &[Tag]) -> Option<usize>
    ensures { result ≡ position (has_tag dt_null) tags.now }
{
    tags.iter().position(|entry| entry.tag == DT_NULL)
}

/// The entries of a dynamic table before its first NULL, in order, or None where no whole entry is
/// NULL.
#[tactic(auto, unfolding(crate::specs::DynTable::Tag::tags_of))]
pub fn read_tags(alloc: Global, bytes: &[u8]) -> Result<Option<Tags>, AllocError>
    ensures { IfOk result (λ tags. tags ≡ tags_of bytes.now) }
{
    let mut tags = all_tags(alloc, bytes)?;
    match first_null(&tags) {
        Some(end) => {
            tags.truncate(end);
            Ok(Some(Tags::from(tags)))
        }
        None => Ok(None),
    }
}

/// The values of the entries of a tag, in order.
#[tactic(auto, unfolding(crate::specs::DynTable::Tag::values_of))]
pub fn values_of(alloc: Global, tags: &[Tag], tag: u64) -> Result<Vec<u64>, AllocError>
    ensures { IfOk result (λ values. values.items ≡ values_of tags.now tag) }
{
    tags.iter()
        .filter(|entry| entry.tag == tag)
        .map(|entry| entry.value)
        .collect(alloc)
}

/// The value of the last entry of a tag.
#[tactic(auto, unfolding(crate::specs::DynTable::Tag::last_of))]
pub fn last_of(tags: &[Tag], tag: u64) -> Option<u64>
    ensures { result ≡ last_of tags.now tag }
{
    tags.iter()
        .rev()
        .find(|entry| entry.tag == tag)
        .map(|entry| entry.value)
}

/// How many entries are of a tag.
#[tactic(auto, unfolding(crate::specs::DynTable::Tag::count_of))]
pub fn count_of(tags: &[Tag], tag: u64) -> usize
    ensures { result ≡ count_of tags.now tag }
{
    tags.iter().filter(|entry| entry.tag == tag).count()
}

/// The value of a tag, 0 where it doesn't stand.
pub fn value_of(tags: &[Tag], tag: u64) -> u64
    ensures { result ≡ value_of tags.now tag }
{
    last_of(tags, tag).unwrap_or(0)
}

/// Whether a tag stands.
pub fn has(tags: &[Tag], tag: u64) -> bool
    ensures { result ≡ has tags.now tag }
{
    last_of(tags, tag).is_some()
}

/// Whether the value of a tag has a flag, which is one bit.
pub fn has_flag(tags: &[Tag], tag: u64, flag: u64) -> bool
    requires { 0 < flag }
    ensures { result ≡ has_flag tags.now tag flag }
{
    value_of(tags, tag) / flag % 2 == 1
}
