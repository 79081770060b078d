//! Where harts start, and with which registers.

ghost use Rattle.std.specs.Prelude.{◌≡◌, ◌≤◌, IfOk, find, length};
ghost use Rattle.std.specs.Option.{option_copied};
ghost use Rattle.history_state.specs.After.{after};
ghost use Rattle.history_state.specs.State.{State as state};
ghost use Rattle.history_calls.specs.Startup.{entries_from, entry_at, is_stack, program_entry, stack_end};
ghost use Rattle.history_state.specs.Storage.{is_static_area, tp_of};
ghost use Rattle.scope_rule.specs.Loading.{with_serial};
ghost use Rattle.link_startup.specs.StartParts.Loaded.{AreGuests, HasLoaded, HaveRoom};

use history_event::{Entries, Event, HartEntry, OpenAnswer, Purpose, Range};
use history_state::{modules_are_few, ranges_apart, static_areas_have_room};
use ld_base::{HartId, Loaded, Serial};
use link_state::LinkState;
use std::alloc::{AllocError, Global};

/// The serial of the program.
const PROGRAM: u64 = 1;
/// The bytes of a page.
const PAGE_SIZE: u64 = 4096;
/// What argc and the ends of argv, of the environment and of the auxiliary vector take, all zero.
const STACK_TOP: u64 = 48;

/// The objects that startup loaded, which are all that are mapped, and the pages that it reserved.
pub fn startup_objects(state: &LinkState) -> (&[Loaded], &[Range])
    requires loaded { HasLoaded state.now.events }
    ensures objects { (loaded : HasLoaded state.now.events) → result.0.now ≡ loaded.added }
    ensures ranges { (loaded : HasLoaded state.now.events) → result.1.now ≡ loaded.ranges }
{
    match state.journal().as_slice().first() {
        Some(
            Event::Open {
                answer: OpenAnswer::Done { added, ranges, .. },
                ..
            },
        ) => (added.as_slice(), ranges.as_slice()),
        _ => unreachable!(),
    }
}

/// The program's entry point.
#[tactic(auto, unfolding(seg_image::specs::Pages::guest_address))]
pub fn program_entry(state: &LinkState) -> u64
    requires loaded { HasLoaded state.now.events }
    ensures { result ≡ program_entry (after state.now.events) }
{
    let (objects, _) = startup_objects(state);
    match object_with(objects, Serial::new(PROGRAM)) {
        Some(program) => program.base.wrapping_add(program.object.entry),
        None => 0,
    }
}

/// The first object with a serial.
pub(crate) fn object_with(objects: &[Loaded], serial: Serial) -> Option<&Loaded>
    ensures { option_copied result ≡ with_serial objects.now serial }
{
    for object in objects {
        if object.serial == serial {
            return Some(object);
        }
    }
    None
}

/// The registers with which harts start at these addresses, those of the first hart first: at most one address
/// for each hart of the run.
///
/// # Errors
///
/// Want of memory.
pub fn entries_of(alloc: Global, state: &LinkState, starts: &[u64]) -> Result<Entries, AllocError>
    requires loaded { HasLoaded state.now.events }
    requires harts { length starts.now ≤ state.now.harts }
    ensures { IfOk result (λ entries. entries ≡ entries_from (after state.now.events) 0 starts.now) }
{
    ranges_apart();
    static_areas_have_room();
    modules_are_few();
    let _ = state.harts();
    let _ = state.journal();
    let (_, ranges) = startup_objects(state);
    let tp = state.modules().tp();
    let mut entries = Entries::new(alloc);
    for (index, pc) in starts.iter().enumerate() {
        entries.push(entry_at(ranges, tp, index as u32, *pc))?;
    }
    Ok(entries)
}

/// The registers with which a hart starts at an address.
fn entry_at(ranges: &[Range], tp: u64, hart: u32, pc: u64) -> HartEntry
    requires guests { AreGuests ranges.now }
    requires room { HaveRoom tp ranges.now }
    ensures { (s : state) → s.ranges ≡ ranges.now → s.statics.tp ≡ tp → result ≡ entry_at s hart pc }
{
    HartEntry {
        pc,
        sp: stack_end(ranges, HartId::new(hart)).saturating_sub(STACK_TOP),
        tp: tp_of(ranges, tp, HartId::new(hart)),
        a0: u64::from(hart),
    }
}

/// Where a hart's stack ends.
fn stack_end(ranges: &[Range], hart: HartId) -> u64
    requires guests { AreGuests ranges.now }
    ensures { (s : state) → s.ranges ≡ ranges.now → result ≡ stack_end s hart }
{
    match stack_of(ranges, hart) {
        Some(range) => range.address + PAGE_SIZE * range.pages,
        None => 0,
    }
}

/// A hart's stack.
fn stack_of(ranges: &[Range], hart: HartId) -> Option<Range>
    ensures { result ≡ find (λ r. is_stack hart r.purpose) ranges.now }
{
    for range in ranges {
        if is_stack(hart, range.purpose) {
            return Some(*range);
        }
    }
    None
}

/// A hart's tp, which stands so far behind the start of its static area; 0 where it has none.
fn tp_of(ranges: &[Range], tp: u64, hart: HartId) -> u64
    requires room { HaveRoom tp ranges.now }
    ensures { (s : state) → s.ranges ≡ ranges.now → s.statics.tp ≡ tp → result ≡ tp_of s hart }
{
    match static_area_of(ranges, hart) {
        Some(range) => range.address + tp,
        None => 0,
    }
}

/// A hart's static area.
fn static_area_of(ranges: &[Range], hart: HartId) -> Option<Range>
    ensures { result ≡ find (λ r. is_static_area hart r.purpose) ranges.now }
{
    for range in ranges {
        if is_static_area(hart, range.purpose) {
            return Some(*range);
        }
    }
    None
}

/// Whether pages are a hart's stack.
fn is_stack(hart: HartId, purpose: Purpose) -> bool
    ensures { result ≡ is_stack hart purpose }
{
    match purpose {
        Purpose::Stack(owner) => owner == hart,
        Purpose::Object(_) | Purpose::StaticTls(_) | Purpose::Block(_, _) => false,
    }
}

/// Whether pages are a hart's static area.
fn is_static_area(hart: HartId, purpose: Purpose) -> bool
    ensures { result ≡ is_static_area hart purpose }
{
    match purpose {
        Purpose::StaticTls(owner) => owner == hart,
        Purpose::Object(_) | Purpose::Stack(_) | Purpose::Block(_, _) => false,
    }
}
