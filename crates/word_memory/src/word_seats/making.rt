//! The linker's page and the harts' seats of a new memory.

ghost use Rattle.std.specs.Prelude.{◌≡◌, ◌≤◌, ◌<◌, ◌+◌, IfOk, OnOk};
ghost use Rattle.word_rule.specs.Start.{IsFirst};
ghost use Rattle.word_memory.specs.WordSeats.Making.{IsMade, new_harts};

use crate::{Fresh, HartSeat, KeeperSeat, Memory, Naming, set_word};
use ld_base::{Role, Sequence};
use std::alloc::{AllocError, Global};

/// The linker's own page: its address, how many doublewords a page has, and two ebreaks.
const LINKER_PAGE: u64 = 0x80_f000;

const PAGE: u64 = 512;

const EBREAKS: u64 = 0x0010_0073_0010_0073;

/// The seats of harts, in order of their numbers.
pub type HartSeats<J> = Sequence<HartSeat<J>>;

/// The keeper's seat, and one of each hart.
#[derive(Drop)]
pub struct Seats<J: Naming> {
    pub keeper: KeeperSeat<J>,
    pub harts: HartSeats<J>,
}

/// Names a new memory, and makes the linker's page and a seat of each hart.
///
/// # Errors
///
/// Want of memory.
pub fn name_memory<J: Naming>(
    fresh: Fresh,
    alloc: Global,
    harts: u32,
) -> Result<(Memory<J>, Seats<J>), AllocError>
    requires name { fresh ≡ J.table }
    requires few { harts ≤ 16 }
    ensures keeper { IfOk result (λ made. IsMade made.1.keeper 512 harts) }
    ensures harts { IfOk result (λ made. made.1.harts ≡ new_harts harts) }
{
    let (memory, desk) = fresh.parts();
    let mut keeper = KeeperSeat::new(desk);
    make_linker_page(&memory, &mut keeper);
    let harts = make_harts(alloc, &memory, &mut keeper, harts)?;
    Ok((memory, Seats { keeper, harts }))
}

// Makes the linker's page.
#[tactic(auto, using(crate::proofs::WordSeats::Made::first_made))]
fn make_linker_page<J: Naming>(memory: &Memory<J>, keeper: &mut KeeperSeat<J>)
    requires { IsFirst keeper.old }
    ensures { IsMade keeper.new 512 0 }
{
    for index in 0..PAGE {
        make_linker_word(memory, keeper, index);
    }
}

// Makes a doubleword of the linker's page. It had no role, so no hart can have locked it.
fn make_linker_word<J: Naming>(memory: &Memory<J>, keeper: &mut KeeperSeat<J>, index: u64)
    requires made { IsMade keeper.old index 0 }
    requires low { index < 512 }
    ensures { IsMade keeper.new (index + 1) 0 }
{
    let address = LINKER_PAGE + 8 * index;
    let _ = set_word(memory, keeper, address, EBREAKS, Role::Rx, 0);
}

// Makes the harts' seats.
#[tactic(auto, using(crate::proofs::WordSeats::Made::hart_more, crate::proofs::WordSeats::Made::new_more))]
fn make_harts<J: Naming>(
    alloc: Global,
    memory: &Memory<J>,
    keeper: &mut KeeperSeat<J>,
    harts: u32,
) -> Result<HartSeats<J>, AllocError>
    requires made { IsMade keeper.old 512 0 }
    requires few { harts ≤ 16 }
    ensures keeper { OnOk result (IsMade keeper.new 512 harts) }
    ensures seats { IfOk result (λ seats. seats ≡ new_harts harts) }
{
    let mut seats = Sequence::new(alloc);
    for number in 0..harts {
        seats.push(keeper.make_hart(memory, u64::from(number)))?;
    }
    Ok(seats)
}
