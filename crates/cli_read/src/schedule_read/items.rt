//! Items of a schedule.

ghost use Rattle.std.specs.Prelude.{◌≡◌, ℕ, ◌<◌, ◌^◌, ◌==◌, Some, None, IfOk, IfErr, IfSome, map, List};
ghost use Rattle.std.specs.List.{slice_split};
ghost use Rattle.cli_read.specs.ScheduleRead.Items.{IsWithin, Writes};
ghost use Rattle.cli_read.specs.declared.schedule_read.fault.TurnsFault.TheVariants.{NotTurns};
ghost use Rattle.world_turns.specs.SchedulesPart.Grammar.{AreItems, IsItem, SaysTurns, parts_of};
ghost use Rattle.world_turns.specs.declared.schedules.schedule.TurnItem.{TurnItem};

use crate::decimals::decimal_number;
use crate::schedule_read::fault::TurnsFault;
use ld_base::HartId;
use std::alloc::{AllocError, Global};
use world_turns::{TurnItem, Turns};

/// The most turns that an item may give.
const MOST_TURNS: u64 = 1 << 32;

fn split_at_commas(alloc: Global, text: &[u8]) -> Result<Vec<&[u8]>, AllocError>
    ensures { IfOk result (λ parts. map (λ part. part.now) parts.items ≡ parts_of text.now) }
{
    text.split(|byte| *byte == b',').collect(alloc)
}

fn split_at_stars(alloc: Global, text: &[u8]) -> Result<Vec<&[u8]>, AllocError>
    ensures { IfOk result (λ parts. map (λ part. part.now) parts.items ≡ slice_split (λ b. b == 42) text.now) }
{
    text.split(|byte| *byte == b'*').collect(alloc)
}

/// The number of a hart, and how many turns it takes.
fn numbers_of(alloc: Global, text: &[u8]) -> Result<Option<(u64, u64)>, AllocError>
    ensures written { IfOk result (λ numbers. IfSome numbers (λ p. Writes text.now p.0 p.1)) }
    ensures every { IfOk result (λ numbers. (h c : ℕ) → h < 2 ^ 64 → c < 2 ^ 64 → Writes text.now h c → numbers ≡ Some (h, c)) }
{
    let parts = split_at_stars(alloc, text)?;
    Ok(match parts.as_slice() {
        [hart] => decimal_number(hart).map(|hart| (hart, 1)),
        [hart, count] => decimal_number(hart).zip(decimal_number(count)),
        _ => None,
    })
}

fn within(harts: u32, hart: u64, count: u64) -> Option<TurnItem>
    ensures is { IfSome result (λ item. IsWithin harts hart count × (item.hart ≡ hart) × (item.count ≡ count)) }
    ensures every { IsWithin harts hart count → result ≡ Some (record { hart = hart; count = count }) }
{
    let hart = u32::try_from(hart).ok()?;
    (hart < harts && 0 < count && count <= MOST_TURNS).then_some(TurnItem {
        hart: HartId::new(hart),
        count,
    })
}

fn item_of(alloc: Global, text: &[u8], harts: u32) -> Result<TurnItem, TurnsFault>
    ensures is { IfOk result (IsItem harts text.now) }
    ensures not_turns { IfErr result (λ fault. fault ≡ NotTurns → (item : TurnItem) → IsItem harts text.now item → ⊥) }
{
    let (hart, count) = numbers_of(alloc, text)?.ok_or(TurnsFault::NotTurns)?;
    within(harts, hart, count).ok_or(TurnsFault::NotTurns)
}

fn items_of(alloc: Global, parts: &[&[u8]], harts: u32) -> Result<Turns, TurnsFault>
    ensures are { IfOk result (AreItems harts (map (λ part. part.now) parts.now)) }
    ensures not_turns { IfErr result (λ fault. fault ≡ NotTurns → (items : List TurnItem) → AreItems harts (map (λ part. part.now) parts.now) items → ⊥) }
{
    let mut turns = Turns::new(alloc);
    for part in parts {
        turns.push(item_of(alloc, part, harts)?)?;
    }
    Ok(turns)
}

/// The items of a schedule of so many harts: `rr`, which has none, or items between commas, `H*K` for the
/// next K turns of hart H and `H` for one.
///
/// # Errors
///
/// `NotTurns` where the text is no schedule, or want of memory.
pub fn read_turns(alloc: Global, text: &str, harts: u32) -> Result<Turns, TurnsFault>
    ensures says { IfOk result (SaysTurns harts text.now) }
    ensures not_turns { IfErr result (λ fault. fault ≡ NotTurns → (items : List TurnItem) → SaysTurns harts text.now items → ⊥) }
{
    if text == "rr" {
        return Ok(Turns::new(alloc));
    }
    let parts = split_at_commas(alloc, text.as_bytes())?;
    items_of(alloc, parts.as_slice(), harts)
}
