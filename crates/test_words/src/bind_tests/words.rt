//! The words that the tests are about: a slot that is lazy, and code.

ghost use Rattle.std.specs.Prelude.{◌≡◌, ◌≢◌, ℕ, None, IfOk, IfSome};
ghost use Rattle.ld_base.specs.declared.linking.Role.TheVariants.{Rw};
ghost use Rattle.word_rule.specs.KeeperSteps.{retired};
ghost use Rattle.word_rule.specs.Layout.{place_of};
ghost use Rattle.word_rule.specs.Views.{IsLong, kept_at, row_of};
ghost use Rattle.word_memory.specs.Roles.{MayRetire, MaySet};
ghost use Rattle.word_memory.specs.WordSeats.Making.{IsMade};
ghost use Rattle.word_access.specs.WordKeeping.Keeping.{set_as};
ghost use Rattle.test_words.specs.BindTests.Stocked.{IsNew, IsReady, IsStocked, IsUnmapped, IsUnslotted};

use ld_base::Role;
use std::alloc::{AllocError, Global};
use word_memory::{
    Fresh, HartSeat, KeeperSeat, Memory, Naming, Seats, name_memory, retire, set_word,
};

/// A slot of libo.so, and the word that stands in it until it is bound.
pub const SLOT: u64 = 0x3_7010;

pub const LAZY: u64 = 0x3_5000;

/// The functions of libf.so and libg.so that the slot may lead to.
pub const FIRST: u64 = 0x3_9000;

pub const SECOND: u64 = 0x3_c000;

/// What stands there: `ebreak`, twice.
pub const CODE: u64 = 0x0010_0073_0010_0073;

// Gives a doubleword that has none a role. No hart can have locked it.
fn put_word<J: Naming>(
    memory: &Memory<J>,
    keeper: &mut KeeperSeat<J>,
    address: u64,
    value: u64,
    role: Role,
)
    requires { MaySet keeper.old address value role }
    ensures set { keeper.new ≡ set_as (place_of address) value role 0x35000 keeper.old }
    ensures long { IsLong keeper.old }
{
    let _ = set_word(memory, keeper, address, value, role, LAZY);
}

// Takes a doubleword's role away, which harts may not write.
fn take_role<J: Naming>(memory: &Memory<J>, keeper: &mut KeeperSeat<J>, address: u64)
    requires may { MayRetire keeper.old address }
    requires unwritten { (kept_at keeper.old (place_of address)).role ≢ Rw }
    ensures taken { keeper.new ≡ retired (place_of address) keeper.old }
{
    let _ = retire(memory, keeper, address);
}

/// A memory of two harts with these words, and its seats.
#[derive(Drop)]
pub struct Stocked<J: Naming> {
    pub memory: Memory<J>,
    pub keeper: KeeperSeat<J>,
    pub zero: HartSeat<J>,
    pub one: HartSeat<J>,
}

/// Makes the slot, and the code that it may lead to.
pub fn stock<J: Naming>(memory: &Memory<J>, keeper: &mut KeeperSeat<J>)
    requires { IsMade keeper.old 512 2 }
    ensures { IsReady keeper.new }
{
    put_word(memory, keeper, LAZY, CODE, Role::Rx);
    put_word(memory, keeper, FIRST, CODE, Role::Rx);
    put_word(memory, keeper, SECOND, CODE, Role::Rx);
    put_word(memory, keeper, SLOT, LAZY, Role::Slot);
}

// Takes the role of the slot, so that nothing leads to the code any more.
fn take_slot<J: Naming>(memory: &Memory<J>, keeper: &mut KeeperSeat<J>)
    requires stocked { IsStocked (kept_at keeper.old) }
    requires settled { (m : ℕ) → (row_of keeper.old m).pending ≡ None }
    ensures { IsUnslotted (kept_at keeper.new) }
{
    take_role(memory, keeper, SLOT);
}

// Takes the role of the code, to which no slot leads.
fn take_code<J: Naming>(memory: &Memory<J>, keeper: &mut KeeperSeat<J>)
    requires unslotted { IsUnslotted (kept_at keeper.old) }
    ensures { IsUnmapped (kept_at keeper.new) }
{
    take_role(memory, keeper, LAZY);
    take_role(memory, keeper, FIRST);
    take_role(memory, keeper, SECOND);
}

/// Takes the role of the slot, and then of the code that it may have led to.
pub fn unmap<J: Naming>(memory: &Memory<J>, keeper: &mut KeeperSeat<J>)
    requires stocked { IsStocked (kept_at keeper.old) }
    requires settled { (m : ℕ) → (row_of keeper.old m).pending ≡ None }
    ensures { IsUnmapped (kept_at keeper.new) }
{
    take_slot(memory, keeper);
    take_code(memory, keeper);
}

/// A memory of two harts, with the slot and the code.
pub fn stocked_memory<J: Naming>(
    fresh: Fresh,
    alloc: Global,
) -> Result<Option<Stocked<J>>, AllocError>
    requires { fresh ≡ J.table }
    ensures keeper { IfOk result (λ made. IfSome made (λ s. IsReady s.keeper)) }
    ensures zero { IfOk result (λ made. IfSome made (λ s. IsNew s.zero)) }
    ensures one { IfOk result (λ made. IfSome made (λ s. IsNew s.one)) }
{
    let (memory, seats) = name_memory::<J>(fresh, alloc, 2)?;
    let Seats { mut keeper, harts } = seats;
    stock(&memory, &mut keeper);
    let mut harts = harts.into_vec();
    let (Some(one), Some(zero)) = (harts.pop(), harts.pop()) else {
        return Ok(None);
    };
    Ok(Some(Stocked {
        memory,
        keeper,
        zero,
        one,
    }))
}
