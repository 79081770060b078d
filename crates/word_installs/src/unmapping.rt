//! Words that are taken away.

ghost use Rattle.std.specs.Prelude.{◌≡◌, ◌≢◌, ◌≤◌, [], ◌∷◌, Contains, IfErr, IfOk};
ghost use Rattle.ld_base.specs.declared.linking.Role.TheVariants.{None as NoRole, Rw, Slot as SlotRole};
ghost use Rattle.word_rule.specs.KeeperSteps.{AreDecided, retired};
ghost use Rattle.word_rule.specs.Layout.{place_of};
ghost use Rattle.word_rule.specs.Views.{kept_at};
ghost use Rattle.word_access.specs.WordKeeping.Keeping.{was_shown};
ghost use Rattle.kept_words.specs.Gone.{IsCovered, IsOfOther, IsOfSlot};
ghost use Rattle.word_installs.specs.Unmapped.{HasNoRole, HasNoSlot, IsUnmapped, MayUnmap, Retires, SlotsGoFirst};

use history_event::Range;
use ld_base::Shown;
use std::sync::Wait;
use word_memory::{
    KeeperSeat, Memory, Naming, has_role, is_slot, latest_generation, retire, set_generation,
};

/// How many doublewords a page has.
const PAGE_WORDS: u64 = 512;

/// Takes the words of these pages away: the generation is set first, where it rose; then the slots lose
/// their role, and then all other doublewords.
///
/// It takes no memory. It waits for a doubleword that a hart has locked.
pub fn unmap<R: Wait, J: Naming>(
    rt: &R,
    memory: &Memory<J>,
    keeper: &mut KeeperSeat<J>,
    ranges: &[Range],
    generation: u64,
)
    requires may { MayUnmap keeper.old ranges.now }
    requires rises { keeper.old.generation ≤ generation }
    ensures unmapped { IsUnmapped ranges.now keeper.old keeper.new }
    ensures generation { keeper.new.generation ≡ generation }
{
    raise_generation(memory, keeper, generation);
    retire_slots(memory, keeper, ranges);
    retire_others(rt, memory, keeper, ranges);
}

/// Sets the generation, where it rose. Its load tells that what came of each slot's grants is decided.
pub(crate) fn raise_generation<J: Naming>(
    memory: &Memory<J>,
    keeper: &mut KeeperSeat<J>,
    generation: u64,
)
    requires { keeper.old.generation ≤ generation }
    ensures raised { keeper.new ≡ record keeper.old { generation = generation } }
    ensures decided { AreDecided keeper.old }
{
    if latest_generation(memory, keeper) < generation {
        set_generation(memory, keeper, generation);
    }
}

/// Takes the slots of these ranges away.
fn retire_slots<J: Naming>(memory: &Memory<J>, keeper: &mut KeeperSeat<J>, ranges: &[Range])
    requires may { MayUnmap keeper.old ranges.now }
    ensures gone { HasNoSlot ranges.now keeper.new }
    ensures retires { Retires IsOfSlot ranges.now keeper.old keeper.new }
{
    for range in ranges {
        retire_slots_in(memory, keeper, ranges, *range);
    }
}

/// Takes the slots of one of the ranges away.
fn retire_slots_in<J: Naming>(
    memory: &Memory<J>,
    keeper: &mut KeeperSeat<J>,
    ranges: &[Range],
    range: Range,
)
    requires may { MayUnmap keeper.old ranges.now }
    requires there { Contains ranges.now range }
    ensures gone { HasNoSlot (range ∷ []) keeper.new }
    ensures retires { Retires IsOfSlot ranges.now keeper.old keeper.new }
{
    for index in 0..PAGE_WORDS * range.pages {
        let address = range.address + 8 * index;
        retire_slot(memory, keeper, ranges, address);
    }
}

/// Takes a doubleword's role away where it is a slot.
fn retire_slot<J: Naming>(
    memory: &Memory<J>,
    keeper: &mut KeeperSeat<J>,
    ranges: &[Range],
    address: u64,
)
    requires may { MayUnmap keeper.old ranges.now }
    requires covered { IsCovered ranges.now address }
    ensures gone { (kept_at keeper.new (place_of address)).role ≢ SlotRole }
    ensures retires { Retires IsOfSlot ranges.now keeper.old keeper.new }
{
    if is_slot(memory, keeper, address) {
        let _ = retire_in(memory, keeper, ranges, address);
    }
}

/// Takes all doublewords of these ranges away, once no slot of them is left.
fn retire_others<R: Wait, J: Naming>(
    rt: &R,
    memory: &Memory<J>,
    keeper: &mut KeeperSeat<J>,
    ranges: &[Range],
)
    requires may { MayUnmap keeper.old ranges.now }
    requires slotless { HasNoSlot ranges.now keeper.old }
    ensures gone { HasNoRole ranges.now keeper.new }
    ensures retires { Retires IsOfOther ranges.now keeper.old keeper.new }
{
    for range in ranges {
        retire_others_in(rt, memory, keeper, ranges, *range);
    }
}

/// Takes the doublewords of one of the ranges away.
fn retire_others_in<R: Wait, J: Naming>(
    rt: &R,
    memory: &Memory<J>,
    keeper: &mut KeeperSeat<J>,
    ranges: &[Range],
    range: Range,
)
    requires may { MayUnmap keeper.old ranges.now }
    requires slotless { HasNoSlot ranges.now keeper.old }
    requires there { Contains ranges.now range }
    ensures gone { HasNoRole (range ∷ []) keeper.new }
    ensures retires { Retires IsOfOther ranges.now keeper.old keeper.new }
{
    for index in 0..PAGE_WORDS * range.pages {
        let address = range.address + 8 * index;
        retire_other(rt, memory, keeper, ranges, address);
    }
}

/// Takes a doubleword's role away, if it has one, once no hart has locked it.
fn retire_other<R: Wait, J: Naming>(
    rt: &R,
    memory: &Memory<J>,
    keeper: &mut KeeperSeat<J>,
    ranges: &[Range],
    address: u64,
)
    requires may { MayUnmap keeper.old ranges.now }
    requires slotless { HasNoSlot ranges.now keeper.old }
    requires covered { IsCovered ranges.now address }
    ensures gone { (kept_at keeper.new (place_of address)).role ≡ NoRole }
    ensures retires { Retires IsOfOther ranges.now keeper.old keeper.new }
{
    for _ in rt.forever() {
        if !has_role(memory, keeper, address) {
            return;
        }
        if retire_in(memory, keeper, ranges, address).is_ok() {
            return;
        }
    }
    unreachable!()
}

/// Takes a doubleword's role away: a slot's, or another's once no slot of the ranges is left.
///
/// # Errors
///
/// Where a hart has locked it.
fn retire_in<J: Naming>(
    memory: &Memory<J>,
    keeper: &mut KeeperSeat<J>,
    _ranges: &[Range],
    address: u64,
) -> Result<(), Shown>
    requires may { MayUnmap keeper.old _ranges.now }
    requires covered { IsCovered _ranges.now address }
    requires some_role { (kept_at keeper.old (place_of address)).role ≢ NoRole }
    requires order { SlotsGoFirst _ranges.now keeper.old address }
    ensures gone { IfOk result (λ _. keeper.new ≡ retired (place_of address) keeper.old) }
    ensures locked { IfErr result (λ shown. keeper.new ≡ was_shown (place_of address) shown keeper.old) }
    ensures writable { IfErr result (λ shown. (kept_at keeper.old (place_of address)).role ≡ Rw) }
{
    retire(memory, keeper, address)
}
