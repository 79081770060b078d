//! Which names have to be strings (rule 12).

ghost use Rattle.std.specs.Prelude.{◌≡◌, ◌==◌, ◌||◌, ◌&&◌, ◌*◌, ◌≤◌, ℕ, nat_lt, drop, find, length, option_map};
ghost use Rattle.std.specs.List.{list_any};
ghost use Rattle.elf_head.specs.DynTable.Symbol.{symbol_name};
ghost use Rattle.elf_dynamic.specs.Rules.{bad_string, lacks_string, name_offsets, unnamed_symbol};
ghost use Rattle.elf_head.specs.DynTable.Tag.{has_tag};
ghost use Rattle.elf_head.specs.DynTable.TagNumbers.{dt_needed, dt_soname};

use elf_head::{DT_NEEDED, DT_SONAME, SYMBOL_SIZE, string_at};
use ld_base::{Tag, field32};

fn is_soname(entry: &Tag) -> bool
    ensures { result ≡ has_tag dt_soname entry.now }
{
    entry.tag == DT_SONAME
}

/// One more than the index of the last soname, 0 where there is none.
fn past_soname(tags: &[Tag]) -> usize
    ensures { (k : ℕ) → list_any (has_tag dt_soname) (drop k tags.now) ≡ nat_lt k result }
{
    let mut past = 0;
    for (index, entry) in tags.iter().enumerate() {
        past = if is_soname(entry) { index + 1 } else { past };
    }
    past
}

/// Whether the entry is a needed name, or the last soname.
fn is_name(entry: &Tag, is_last: bool) -> bool
    ensures { result ≡ (has_tag dt_needed entry.now || (has_tag dt_soname entry.now && is_last)) }
{
    entry.tag == DT_NEEDED || (is_soname(entry) && is_last)
}

/// Whether no string stands at the offset.
fn lacks_string(strings: &[u8], offset: u64) -> bool
    ensures { result ≡ lacks_string strings.now offset }
{
    string_at(strings, offset).is_none()
}

/// The first offset without a string, of the needed names and the soname in their order.
fn bad_name(strings: &[u8], tags: &[Tag]) -> Option<u64>
    ensures { result ≡ find (lacks_string strings.now) (name_offsets tags.now) }
{
    let past = past_soname(tags);
    for (index, entry) in tags.iter().enumerate() {
        if is_name(entry, index + 1 >= past) && lacks_string(strings, entry.value) {
            return Some(entry.value);
        }
    }
    None
}

/// The first offset without a string, of the names of so many symbols.
#[tactic(auto, using(crate::proofs::BadNames::least_steps))]
fn bad_symbol_name(strings: &[u8], part: &[u8], count: u32) -> Option<u64>
    requires { 24 * count ≤ length part.now }
    ensures { result ≡ option_map (λ i. symbol_name part.now (24 * i)) (unnamed_symbol strings.now part.now count) }
{
    for index in 0..count {
        let offset = u64::from(field32(part, SYMBOL_SIZE as usize * index as usize));
        if lacks_string(strings, offset) {
            return Some(offset);
        }
    }
    None
}

/// The first offset without a string, of all names.
#[tactic(auto, unfolding(crate::specs::Rules::bad_string))]
pub(crate) fn bad_string(strings: &[u8], tags: &[Tag], part: &[u8], count: u32) -> Option<u64>
    requires { 24 * count ≤ length part.now }
    ensures { result ≡ bad_string strings.now tags.now part.now count }
{
    match bad_name(strings, tags) {
        Some(offset) => Some(offset),
        None => bad_symbol_name(strings, part, count),
    }
}
