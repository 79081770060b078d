//! The table, and its name.

ghost use Rattle.std.specs.Prelude.{◌≡◌};
ghost use Rattle.word_rule.specs.Layout.{table_words};

mod fresh;
pub(crate) mod seats;
pub(crate) mod steps;

pub use self::fresh::Fresh;
use atomic_table::Table;
use std::alloc::Global;
use std::marker::{Brand, PhantomData};
use word_rule::{GuestRule, View};

/// Names one memory and its seats. A table gets its identity when it is made, so whoever makes it
/// picks the name.
pub trait Naming {
    ghost use Rattle.atomic_table.specs.Seated.{TableId};

    ghost table: { TableId };
}

impl Naming for Brand {
    ghost use Rattle.std.specs.Prelude.{[]};

    ghost table = { record { words = 0; slots = 0; views_name = 0; atom = 0; block = 0; offset = 0; slot_names = [] } };
}

/// Guest memory, and the words between the linker and the harts.
#[derive(Drop)]
pub struct Memory<J: Naming> {
    table: Table<(), View, (), GuestRule, Global>,
    of: PhantomData<J>,
    ghost named: { table.shared.table_id ≡ J.table },
    ghost wide: { J.table.words ≡ table_words },
}
