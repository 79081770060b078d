//! Whether an event may come, one kind of event each.

ghost use Rattle.std.specs.Prelude.{◌≡◌};
ghost use Rattle.std.specs.List.{list_all};

mod blocks;
mod closing;
mod functions;
mod grants;
mod looking;
mod slots;
mod telling;
mod unmapping;

pub(crate) use blocks::may_have_block;
pub(crate) use closing::may_close;
pub(crate) use functions::{may_finalise, may_initialise};
pub(crate) use grants::{may_bind, may_lose, slot_value};
pub(crate) use looking::may_answer;
pub(crate) use slots::{may_grant, may_not_bind};
pub(crate) use telling::{are_finals, may_be_told, may_end, may_write};
pub(crate) use unmapping::{may_unmap, next_of};

/// Whether all of these hold.
pub(crate) fn all(tests: &[bool]) -> bool
    ensures { result ≡ list_all (λ test. test) tests.now }
{
    tests.iter().all(|test| *test)
}
