//! A memory that is made.

ghost use Rattle.std.specs.Prelude.{◌≡◌, [], IfOk};
ghost use Rattle.word_rule.specs.declared.view.View.TheVariants.{Keeper};
ghost use Rattle.word_rule.specs.Layout.{table_words};
ghost use Rattle.word_rule.specs.Start.{IsFirst, first_keeper, first_words};
ghost use Rattle.word_steps.specs.Views.{IsResting};

use crate::desk::Desk;
use crate::layout::table_words;
use crate::{Memory, Naming};
use atomic_table::{Seat, Table};
use std::alloc::{AllocError, Global};
use std::marker::{Brand, Model, PhantomData};
use word_rule::{GuestRule, View};

/// A memory that has no name yet. Contracts see it as its table's identity, which whoever names it takes
/// for the name.
#[derive(Drop)]
pub struct Fresh {
    table: Table<(), View, (), GuestRule, Global>,
    keeper: Seat<(), View>,
    ghost seated: { keeper.table_id ≡ table.shared.table_id },
    ghost wide: { table.shared.table_id.words ≡ table_words },
    ghost first: { keeper.me ≡ (Keeper first_keeper, []) },
}

impl Model for Fresh {
    ghost use Rattle.atomic_table.specs.Seated.{TableId};

    ghost Value = { TableId };

    ghost view = { λ s. s.table.shared.table_id };
}

impl Memory<Brand> {
    /// A memory whose doublewords have no role.
    ///
    /// # Errors
    ///
    /// Want of memory.
    pub fn new(alloc: Global) -> Result<Fresh, AllocError> {
        let words = first_words(alloc)?;
        let (table, keeper) = Table::of_words(alloc, words.as_slice(), &())?;
        Ok(Fresh { table, keeper })
    }
}

// The words at the start.
fn first_words(alloc: Global) -> Result<Vec<u64>, AllocError>
    ensures { IfOk result (λ words. words.items ≡ first_words) }
{
    vec![in alloc; 0u64; table_words()]
}

impl Fresh {
    /// Names the memory, and gives the keeper's seat, which knows of nothing yet.
    pub fn parts<J: Naming>(self) -> (Memory<J>, Desk<J>)
        requires { self ≡ J.table }
        ensures first { IsFirst result.1 }
        ensures resting { IsResting result.1 }
    {
        let Fresh { table, keeper } = self;
        let memory = Memory {
            table,
            of: PhantomData,
        };
        (memory, Desk::new(keeper))
    }
}
