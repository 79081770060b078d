//! An access of a hart: its steps in their order, and the one item that it leaves.

ghost use Rattle.std.specs.Prelude.{◌≡◌, ◌%◌, ◌<◌, Some, IfSome};
ghost use Rattle.word_rule.specs.Layout.{IsDoubleword, doublewords};
ghost use Rattle.word_rule.specs.Views.{nothing_locked};
ghost use Rattle.word_rule.specs.HartSteps.{Asked, HartReady, IsAsked, IsWhole, ask_place, entered, hart_after, heeded, made, stored, with_access};
ghost use Rattle.word_rule.specs.HartSteps.{load_address, load_place, load_size, store_address, store_place, store_size};
ghost use Rattle.word_rule.specs.declared.view.TrailItem.TheVariants.{Call};
ghost use Rattle.word_access.specs.Holding.{Changes, Glances, HasOperands, IsLocking, Loads, Locks};
ghost use Rattle.word_steps.specs.Views.{IsIdle};

use crate::asks::{is_permitted, is_timely};
use ld_base::Shown;
use rv_hart::{BusFault, combined, lane, with_lane};
use word_rule::{Ask, Grant, HartKind, LoadAsk, StoreAsk};
use word_steps::{
    Hand, LOCK, Memory, Naming, control_word, is_locked, place_at, role_of, value_word,
};

// Loads the control word of a doubleword, and ends the access where it may not go on.
fn glance<J: Naming>(
    memory: &Memory<J>,
    hand: &mut Hand<J>,
    ask: Ask,
    at: usize,
) -> Result<u64, BusFault>
    requires idle { IsIdle hand.old }
    requires asked { Asked ask }
    requires at { at ≡ ask_place ask }
    ensures { Glances ask hand.old result hand.new }
{
    let control = hand.load_word(memory, control_word(at), HartKind::Look(ask));
    if is_locked(control) {
        return Err(BusFault::Again(Shown::Locked(control, control)));
    }
    let role = role_of(control);
    if !is_permitted(ask, role) {
        return Err(BusFault::Role(role));
    }
    Ok(control)
}

/// A load, which finds a control word and a value.
pub(crate) fn load<J: Naming>(
    memory: &Memory<J>,
    hand: &mut Hand<J>,
    ask: LoadAsk,
    at: usize,
) -> Result<(u64, u64), BusFault>
    requires idle { IsIdle hand.old }
    requires asked { IsAsked (load_address ask) (load_size ask) }
    requires at { at ≡ load_place ask }
    ensures { Loads ask hand.old result hand.new }
{
    let control = glance(memory, hand, Ask::Load(ask), at)?;
    let value = hand.load_word(memory, value_word(at), HartKind::Load(ask));
    Ok((control, value))
}

// Locks the doubleword of a store; None where a conditional store comes too late.
fn lock<J: Naming>(
    memory: &Memory<J>,
    hand: &mut Hand<J>,
    ask: StoreAsk,
    at: usize,
) -> Result<Option<u64>, BusFault>
    requires idle { IsIdle hand.old }
    requires asked { IsAsked (store_address ask) (store_size ask) }
    requires at { at ≡ store_place ask }
    ensures { Locks ask hand.old result hand.new }
{
    let control = glance(memory, hand, Ask::Store(ask), at)?;
    if !is_timely(ask, control) {
        return Ok(None);
    }
    let kind = HartKind::Lock(ask, control);
    let found = hand.exchange_word(memory, control_word(at), control, control + LOCK, kind);
    if found != control {
        return Err(BusFault::Again(Shown::Locked(control, found)));
    }
    Ok(Some(control))
}

// Unlocks the doubleword of a store that was made.
fn unlock<J: Naming>(memory: &Memory<J>, hand: &mut Hand<J>, at: usize)
    requires at { at < doublewords }
    requires locked { hand.old.access.locked ≡ Some at }
    requires stored { hand.old.access.last ≡ None }
    ensures { hand.new ≡ with_access nothing_locked (heeded hand.old) }
{
    hand.add_word(memory, control_word(at), LOCK, HartKind::Unlock(at as u64));
}

// Stores what the ask makes of the value found.
fn modify<J: Naming>(memory: &Memory<J>, hand: &mut Hand<J>, ask: StoreAsk, at: usize) -> u64
    requires locked { IsLocking ask hand.old }
    requires asked { IsAsked (store_address ask) (store_size ask) }
    requires operands { HasOperands ask }
    requires at { at ≡ store_place ask }
    ensures { hand.new ≡ entered (Call (stored ask result)) (with_access nothing_locked (heeded hand.old)) }
{
    let found = hand.load_word(memory, value_word(at), HartKind::Hold(ask));
    let value = made(ask, found);
    hand.store_word(memory, value_word(at), value, HartKind::Store(ask, value));
    unlock(memory, hand, at);
    found
}

// Stores a whole doubleword, without a look at the value.
fn replace<J: Naming>(memory: &Memory<J>, hand: &mut Hand<J>, ask: StoreAsk, at: usize, value: u64)
    requires locked { IsLocking ask hand.old }
    requires asked { IsAsked (store_address ask) (store_size ask) }
    requires whole { IsWhole ask value }
    requires at { at ≡ store_place ask }
    ensures { hand.new ≡ entered (Call (stored ask 0)) (with_access nothing_locked (heeded hand.old)) }
{
    hand.store_word(memory, value_word(at), value, HartKind::Store(ask, value));
    unlock(memory, hand, at);
}

/// A store; None where it is a conditional one that comes too late, else the value found, or 0
/// where the store is of a whole doubleword.
pub(crate) fn change<J: Naming>(
    memory: &Memory<J>,
    hand: &mut Hand<J>,
    ask: StoreAsk,
    at: usize,
) -> Result<Option<u64>, BusFault>
    requires idle { IsIdle hand.old }
    requires asked { IsAsked (store_address ask) (store_size ask) }
    requires operands { HasOperands ask }
    requires at { at ≡ store_place ask }
    ensures { Changes ask hand.old result hand.new }
{
    if lock(memory, hand, ask, at)?.is_none() {
        return Ok(None);
    }
    match whole(ask) {
        Some(value) => {
            replace(memory, hand, ask, at, value);
            Ok(Some(0))
        }
        None => Ok(Some(modify(memory, hand, ask, at))),
    }
}

/// Exchanges the word of a grant's slot, and answers the word found.
pub fn exchange<J: Naming>(memory: &Memory<J>, hand: &mut Hand<J>, grant: Grant) -> u64
    requires slot { IsDoubleword grant.entry.slot }
    requires ready { HartReady (HartKind.Exchange grant) hand.old }
    ensures { hand.new ≡ hart_after (HartKind.Exchange grant) hand.old result }
{
    let word = value_word(place_at(grant.entry.slot));
    let kind = HartKind::Exchange(grant);
    hand.exchange_word(memory, word, grant.lazy, grant.entry.value, kind)
}

// What a store leaves in the doubleword.
fn made(ask: StoreAsk, found: u64) -> u64
    requires aligned { store_address ask % store_size ask ≡ 0 }
    requires operands { HasOperands ask }
    ensures { result ≡ made ask found }
{
    match ask {
        StoreAsk::Write(address, size, value) => with_lane(found, address, size, value),
        StoreAsk::Conditional(address, size, value, _) => with_lane(found, address, size, value),
        StoreAsk::Amo(address, size, op, value) => {
            let old = lane(found, address, size);
            with_lane(found, address, size, combined(op, size, old, value))
        }
    }
}

// The value of a store that covers the whole doubleword, and doesn't ask what was there.
fn whole(ask: StoreAsk) -> Option<u64>
    ensures { IfSome result (IsWhole ask) }
{
    match ask {
        StoreAsk::Write(_, 8, value) => Some(value),
        StoreAsk::Conditional(_, 8, value, _) => Some(value),
        StoreAsk::Write(_, _, _) | StoreAsk::Conditional(_, _, _, _) | StoreAsk::Amo(_, _, _, _) =>
            None,
    }
}
