//! Two harts resolve one slot; then the slot and its code lose their roles.

ghost use Rattle.std.specs.Prelude.{◌≡◌};
ghost use Rattle.test_words.specs.BindTests.Stocked.{IsNew, IsReady};

use crate::bind_tests::calls::{grant, granted, resolve, settle};
use crate::bind_tests::words::{FIRST, LAZY, SECOND, SLOT, Stocked, stocked_memory, unmap};
use history_event::Event;
use ld_base::{GrantNo, HartId};
use rv_hart::Bus;
use slot_bind::{Asked, Bound, look};
use std::alloc::{AllocError, Global};
use std::marker::Brand;
use word_memory::{Fresh, HartSeat, KeeperSeat, Memory, Naming, TableBus};

/// What a hart reads of the slot, and fetches of the code at its lazy word and at the two functions.
type Seen = [Option<u64>; 4];

/// What the two harts and the keeper find, hart 1 first, and what hart 0 sees before and after.
#[derive(Drop)]
struct Found {
    granted: Seen,
    bound: ((Bound, u64), (Bound, u64)),
    resolved: Seen,
    asked: (Asked, Asked),
    unmapped: Seen,
}

// Harts 0 and 1 are granted the slot; hart 1 is the first that exchanges it.
fn race<J: Naming>(
    memory: &Memory<J>,
    keeper: &mut KeeperSeat<J>,
    zero: &mut HartSeat<J>,
    one: &mut HartSeat<J>,
    event: &Event,
) -> Option<Found>
    requires ready { IsReady keeper.old }
    requires zero { IsNew zero.old }
    requires one { IsNew one.old }
{
    let first = granted(1, FIRST);
    grant(memory, keeper, zero, HartId::new(0), event, &first)?;
    let second = granted(2, SECOND);
    grant(memory, keeper, one, HartId::new(1), event, &second)?;
    let granted = seen(memory, zero);
    let bound = (resolve(memory, one)?, resolve(memory, zero)?);
    let resolved = seen(memory, zero);
    let asked_one = settle(memory, keeper, HartId::new(1));
    if asked_one == Asked::Open {
        return None;
    }
    let asked_zero = settle(memory, keeper, HartId::new(0));
    if asked_zero == Asked::Open {
        return None;
    }
    unmap(memory, keeper);
    Some(Found {
        granted,
        bound,
        resolved,
        asked: (asked_one, asked_zero),
        unmapped: seen(memory, zero),
    })
}

// What a hart sees of the words.
fn seen<J: Naming>(memory: &Memory<J>, seat: &mut HartSeat<J>) -> Seen
    ensures { (seat.new.lane ≡ seat.old.lane) }
{
    let slot = look(memory, seat, SLOT);
    let lazy = TableBus::new(memory, seat).fetch(LAZY);
    let first = TableBus::new(memory, seat).fetch(FIRST);
    let second = TableBus::new(memory, seat).fetch(SECOND);
    [
        slot.ok(),
        lazy.ok().map(u64::from),
        first.ok().map(u64::from),
        second.ok().map(u64::from),
    ]
}

fn race_over<J: Naming>(fresh: Fresh, alloc: Global) -> Result<Option<Found>, AllocError>
    requires { fresh ≡ J.table }
{
    let Some(made) = stocked_memory::<J>(fresh, alloc)? else {
        return Ok(None);
    };
    let Stocked {
        memory,
        mut keeper,
        mut zero,
        mut one,
    } = made;
    let grant = GrantNo::new(1);
    let event = Event::Bound { grant };
    Ok(race(&memory, &mut keeper, &mut zero, &mut one, &event))
}

/// What is found of a race for a slot, and of the slot and its code up to when they lose their roles.
pub fn raced(alloc: Global) -> Result<String, AllocError> {
    let fresh = Memory::new(alloc)?;
    match race_over::<Brand>(fresh, alloc)? {
        Some(found) => told(alloc, found),
        None => String::from_str(alloc, "no race\n"),
    }
}

fn told(alloc: Global, found: Found) -> Result<String, AllocError> {
    let (one, zero) = found.bound;
    let (asked_one, asked_zero) = found.asked;
    let mut text = String::new(alloc);
    tell_seen(&mut text, "granted", found.granted)?;
    tell_bound(&mut text, "hart 1", one)?;
    tell_bound(&mut text, "hart 0", zero)?;
    tell_seen(&mut text, "resolved", found.resolved)?;
    tell_asked(&mut text, "hart 1", asked_one)?;
    tell_asked(&mut text, "hart 0", asked_zero)?;
    tell_seen(&mut text, "unmapped", found.unmapped)?;
    Ok(text)
}

fn tell_seen(text: &mut String, when: &str, seen: Seen) -> Result<(), AllocError> {
    write!(text, "{when}:")?;
    for value in seen {
        match value {
            Some(value) => write!(text, " {value:#x}")?,
            None => write!(text, " none")?,
        }
    }
    writeln!(text)
}

fn tell_bound(text: &mut String, who: &str, (bound, at): (Bound, u64)) -> Result<(), AllocError> {
    match bound {
        Bound::Won => writeln!(text, "{who} won, and goes on at {at:#x}"),
        Bound::Lost(word) => writeln!(text, "{who} lost to {word:#x}, and goes on at {at:#x}"),
    }
}

fn tell_asked(text: &mut String, who: &str, asked: Asked) -> Result<(), AllocError> {
    match asked {
        Asked::Open => writeln!(text, "{who} has its grant still"),
        Asked::Won => writeln!(text, "{who} is found to have won"),
        Asked::Lost(word) => writeln!(text, "{who} is found to have lost to {word:#x}"),
    }
}
