//! A memory whose doublewords get their words one after the other.

ghost use Rattle.std.specs.Prelude.{◌≡◌, ◌≢◌, ◌<◌, ◌+◌};
ghost use Rattle.ld_base.specs.declared.linking.Role.TheVariants.{None as NoRole, Slot as SlotRole};
ghost use Rattle.word_memory.specs.WordSeats.Making.{IsMade};
ghost use Rattle.test_words.specs.WordTests.Unset.{AreUnset};

use ld_base::Role;
use std::alloc::{AllocError, Global};
use std::marker::Model;
use word_memory::{Fresh, HartSeat, KeeperSeat, Memory, Naming, Seats, name_memory, set_word};

/// Where the first doubleword is.
pub const WORDS: u64 = 0x1_0000;

/// A memory's keeper, and how many of its doublewords have their words.
#[derive(Drop)]
pub struct Writer<J: Naming> {
    keeper: KeeperSeat<J>,
    next: u64,
}

impl<J: Naming> Model for Writer<J> {
    ghost use Rattle.word_rule.specs.declared.view.KeeperView.{KeeperView};
    ghost use Rattle.test_words.specs.WordTests.Unset.{AreUnset};

    ghost Value = { KeeperView };

    ghost view = { λ w. w.keeper };

    ghost invariant = { λ w. AreUnset w.keeper w.next };
}

impl<J: Naming> Writer<J> {
    #[tactic(auto, using(crate::proofs::WordTests::Unset::unset_first))]
    fn new(keeper: KeeperSeat<J>) -> Self
        requires { IsMade keeper 512 2 }
    {
        Writer { keeper, next: 0 }
    }

    /// Gives the next doubleword a value and a role, and answers its address, while there is one.
    pub fn put(&mut self, memory: &Memory<J>, value: u64, role: Role) -> Option<u64>
        requires { (role ≢ NoRole) × (role ≢ SlotRole) }
    {
        let index = self.next;
        if index >= 64 {
            return None;
        }
        put_word(memory, &mut self.keeper, index, value, role);
        self.next = index + 1;
        Some(WORDS + 8 * index)
    }
}

// Gives a doubleword its role. No hart can have locked it.
fn put_word<J: Naming>(
    memory: &Memory<J>,
    keeper: &mut KeeperSeat<J>,
    index: u64,
    value: u64,
    role: Role,
)
    requires unset { AreUnset keeper.old index }
    requires low { index < 64 }
    requires role { (role ≢ NoRole) × (role ≢ SlotRole) }
    ensures { AreUnset keeper.new (index + 1) }
{
    let _ = set_word(memory, keeper, WORDS + 8 * index, value, role, 0);
}

/// A memory without words, and the seats of two harts.
#[derive(Drop)]
pub struct Table<J: Naming> {
    pub memory: Memory<J>,
    pub writer: Writer<J>,
    pub seats: Vec<HartSeat<J>>,
}

pub fn new_table<J: Naming>(fresh: Fresh, alloc: Global) -> Result<Table<J>, AllocError>
    requires { fresh ≡ J.table }
{
    let (memory, seats) = name_memory::<J>(fresh, alloc, 2)?;
    let Seats { keeper, harts } = seats;
    Ok(Table {
        memory,
        writer: Writer::new(keeper),
        seats: harts.into_vec(),
    })
}
