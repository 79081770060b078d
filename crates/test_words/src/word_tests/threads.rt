//! Two harts on threads that add to one doubleword.

ghost use Rattle.std.specs.Prelude.{◌≡◌};

use super::words::{Table, WORDS, new_table};
use ld_base::Role;
use rv_hart::Bus;
use rv_isa::AmoOp;
use std::alloc::{AllocError, Global};
use std::marker::Brand;
use std::thread::{Threads, join};
use word_memory::{Fresh, HartSeat, Memory, Naming, TableBus};

/// How often each hart adds one.
pub const TIMES: u32 = 2_000;

/// What is there when both harts have added one so often.
pub fn added<R: Threads>(rt: &R, alloc: Global) -> Result<Option<u64>, AllocError> {
    let fresh = Memory::new(alloc)?;
    both_add::<Brand, R>(rt, fresh, alloc)
}

fn both_add<J: Naming + Send + Sync, R: Threads>(
    rt: &R,
    fresh: Fresh,
    alloc: Global,
) -> Result<Option<u64>, AllocError>
    requires { fresh ≡ J.table }
{
    let Table {
        memory,
        mut writer,
        mut seats,
    } = new_table::<J>(fresh, alloc)?;
    let _ = writer.put(&memory, 0, Role::Rw);
    let (Some(one), Some(zero)) = (seats.pop(), seats.pop()) else {
        return Ok(None);
    };
    let shared = &memory;
    let (mut seat, _) = join(
        rt,
        || -> HartSeat<J> { add_ones(shared, zero) },
        || -> HartSeat<J> { add_ones(shared, one) },
    );
    Ok(TableBus::new(&memory, &mut seat).read(WORDS, 8).ok())
}

fn add_ones<J: Naming>(memory: &Memory<J>, mut seat: HartSeat<J>) -> HartSeat<J> {
    for _ in 0..TIMES {
        add_one(memory, &mut seat);
    }
    seat
}

// Adds one, however often the other hart is in the way.
fn add_one<J: Naming>(memory: &Memory<J>, seat: &mut HartSeat<J>) {
    for _ in 0..u32::MAX {
        if TableBus::new(memory, seat)
            .amo(WORDS, 8, AmoOp::Add, 1)
            .is_ok()
        {
            return;
        }
    }
}
