//! What is asked of slots, the relocations of the procedure linkage table (psABI, "Procedure Linkage
//! Table").

ghost use Rattle.std.specs.Prelude.{◌≡◌, ◌<◌, ◌≤◌, ◌^◌, ◌+◌, ◌/◌, ◌%◌, ◌||◌, ◌++◌, false, List, Ok, IfOk, position};
ghost use Rattle.std.specs.Option.{option_map_or};
ghost use Rattle.ld_base.specs.declared.object.Span.{Span};
ghost use Rattle.elf_head.specs.Rules.{head_verdict};
ghost use Rattle.elf_dynamic.specs.Marks.{is_marked, AreMarks};
ghost use Rattle.elf_dynamic.specs.Memory.{AreLow};
ghost use Rattle.elf_dynamic.specs.Named.{slot_ranges};
ghost use Rattle.elf_dynamic.specs.Rules.{bad_slot, is_bad_slot, is_bad_table_of_slots, is_no_slot, is_shared, leads_to_code};

use crate::marks::Marks;
use crate::memory::{in_executable, in_writable};
use crate::naming::Naming;
use crate::reloc_rules::{DOUBLEWORD, doubleword, is_bad_place, named_by};
use elf_head::{R_RISCV_JUMP_SLOT, file_bytes};
use ld_base::{Head, Header, Reloc, Span, Symbol, field64};
use std::alloc::{AllocError, Global};

/// The bytes at the start of the table of slots that belong to the linker.
const TABLE_HEAD: u64 = 16;
/// The bytes of an instruction.
const INSTRUCTION: u64 = 4;

/// The slots of an object, and what else they are judged by.
#[derive(Clone, Copy)]
pub(crate) struct Slots<'a> {
    pub(crate) bytes: &'a [u8],
    pub(crate) head: &'a Head,
    pub(crate) symbols: &'a [Symbol],
    pub(crate) relocs: &'a [Reloc],
    /// The address of the table of slots.
    pub(crate) table: Option<u64>,
}

/// The first slot that is bad, or their number where there are some and their table is bad. The
/// doublewords are those of which other relocations name bytes.
#[tactic(auto, unfolding(crate::specs::Rules::bad_slot))]
pub(crate) fn bad_slot(
    alloc: Global,
    slots: Slots,
    named: &Marks,
) -> Result<Option<usize>, AllocError>
    requires accepted { head_verdict slots.bytes.now ≡ Ok slots.head.now }
    requires low { AreLow slots.head.now.headers }
    ensures { IfOk result (λ first. (others : List Span) → AreMarks named.now.words.items others
        → first ≡ bad_slot slots.entry.bytes.now slots.entry.head.now.headers slots.entry.symbols.now others slots.entry.relocs.now slots.entry.table) }
{
    let ranges = slot_ranges(alloc, slots.symbols, slots.relocs)?;
    let naming = Naming::new(alloc, &ranges)?;
    let count = slots.relocs.len();
    match first_bad_slot(slots, named, &naming) {
        Some(index) => Ok(Some(index)),
        None if count > 0 && has_bad_table(slots, named, &naming) => Ok(Some(count)),
        None => Ok(None),
    }
}

/// The bytes that slots name.
fn slot_ranges(alloc: Global, symbols: &[Symbol], slots: &[Reloc]) -> Result<Vec<Span>, AllocError>
    ensures { IfOk result (λ ranges. ranges.items ≡ slot_ranges symbols.now slots.now) }
{
    let mut ranges = Vec::new(alloc);
    for slot in slots {
        ranges.push(named_by(symbols, *slot))?;
    }
    Ok(ranges)
}

/// The first slot that is bad.
fn first_bad_slot(slots: Slots, named: &Marks, naming: &Naming) -> Option<usize>
    requires accepted { head_verdict slots.bytes.now ≡ Ok slots.head.now }
    requires low { AreLow slots.head.now.headers }
    requires naming { naming.now ≡ slot_ranges slots.symbols.now slots.relocs.now }
    ensures { (others : List Span) → AreMarks named.now.words.items others
        → result ≡ position (is_bad_slot slots.entry.bytes.now slots.entry.head.now.headers slots.entry.symbols.now others
        (slot_ranges slots.entry.symbols.now slots.entry.relocs.now)) slots.entry.relocs.now }
{
    for (index, slot) in slots.relocs.iter().enumerate() {
        if is_bad_slot(slots, named, naming, *slot) {
            return Some(index);
        }
    }
    None
}

/// Whether the slot isn't one of a symbol's function, at a place of its own that leads to code.
#[tactic(auto, using(crate::proofs::Ranges::low_slot))]
fn is_bad_slot(slots: Slots, named: &Marks, naming: &Naming, slot: Reloc) -> bool
    requires accepted { head_verdict slots.bytes.now ≡ Ok slots.head.now }
    requires low { AreLow slots.head.now.headers }
    requires naming { naming.now ≡ slot_ranges slots.symbols.now slots.relocs.now }
    ensures { (others : List Span) → AreMarks named.now.words.items others
        → result ≡ is_bad_slot slots.entry.bytes.now slots.entry.head.now.headers slots.entry.symbols.now others
        (slot_ranges slots.entry.symbols.now slots.entry.relocs.now) slot }
{
    if is_no_slot(slots, slot) {
        return true;
    }
    is_shared(slots, named, naming, slot.place)
}

/// Whether the slot isn't one of a symbol's function, at a doubleword that leads to code.
#[tactic(auto, using(crate::proofs::Ranges::low_slot))]
fn is_no_slot(slots: Slots, slot: Reloc) -> bool
    requires accepted { head_verdict slots.bytes.now ≡ Ok slots.head.now }
    ensures { result ≡ is_no_slot slots.entry.bytes.now slots.entry.head.now.headers slots.entry.symbols.now slot }
{
    slot.kind != R_RISCV_JUMP_SLOT
        || slot.symbol == 0
        || slot.symbol as usize >= slots.symbols.len()
        || is_bad_place(slots.head.headers.as_slice(), slot.place)
        || !leads_to_code(slots.bytes, slots.head, slot.place)
}

/// Whether another relocation than the slot at a place names a byte of its doubleword.
#[tactic(auto, using(crate::proofs::Ranges::marked_place))]
fn is_shared(slots: Slots, named: &Marks, naming: &Naming, place: u64) -> bool
    requires aligned { place % 8 ≡ 0 }
    requires near { place + 8 ≤ 2 ^ 32 }
    requires naming { naming.now ≡ slot_ranges slots.symbols.now slots.relocs.now }
    ensures { (others : List Span) → AreMarks named.now.words.items others
        → result ≡ is_shared others (slot_ranges slots.entry.symbols.now slots.entry.relocs.now) place }
{
    if named.has(place / DOUBLEWORD) {
        return true;
    }
    naming.times(doubleword(place)) != 1
}

/// Whether the file has an address in executable memory at the place.
fn leads_to_code(bytes: &[u8], head: &Head, place: u64) -> bool
    requires { head_verdict bytes.now ≡ Ok head.now }
    ensures { result ≡ leads_to_code bytes.now head.now.headers place }
{
    match file_bytes(bytes, head, place, DOUBLEWORD) {
        Some(part) => {
            let target = field64(part, 0);
            target % INSTRUCTION == 0 && in_executable(head.headers.as_slice(), target)
        }
        None => false,
    }
}

/// Whether there is a table of slots that is bad.
fn has_bad_table(slots: Slots, named: &Marks, naming: &Naming) -> bool
    requires low { AreLow slots.head.now.headers }
    requires naming { naming.now ≡ slot_ranges slots.symbols.now slots.relocs.now }
    ensures { (others : List Span) → AreMarks named.now.words.items others
        → result ≡ option_map_or
        (is_bad_table_of_slots slots.entry.head.now.headers (others ++ slot_ranges slots.entry.symbols.now slots.entry.relocs.now)) slots.entry.table false }
{
    match slots.table {
        Some(start) => is_bad_table_of_slots(slots, named, naming, start),
        None => false,
    }
}

/// Whether the first bytes of the table of slots, which belong to the linker, aren't two doublewords
/// of writable memory that no relocation names.
#[tactic(auto, using(crate::proofs::Ranges::head_of_slots))]
fn is_bad_table_of_slots(slots: Slots, named: &Marks, naming: &Naming, start: u64) -> bool
    requires low { AreLow slots.head.now.headers }
    requires naming { naming.now ≡ slot_ranges slots.symbols.now slots.relocs.now }
    ensures { (others : List Span) → AreMarks named.now.words.items others
        → result ≡ is_bad_table_of_slots slots.entry.head.now.headers (others ++ slot_ranges slots.entry.symbols.now slots.entry.relocs.now) start }
{
    let span = Span {
        start,
        size: TABLE_HEAD,
    };
    if start % DOUBLEWORD != 0 || !in_writable(slots.head.headers.as_slice(), span) {
        return true;
    }
    if has_two(named, start) {
        return true;
    }
    naming.times(span) != 0
}

/// Whether one of the two doublewords from a place on is named.
fn has_two(named: &Marks, start: u64) -> bool
    ensures { result ≡ (is_marked named.now.words.items (start / 8) || is_marked named.now.words.items (start / 8 + 1)) }
{
    let first = start / DOUBLEWORD;
    named.has(first) || named.has(first + 1)
}
