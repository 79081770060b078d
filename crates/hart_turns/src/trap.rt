//! What an ecall asks for.

ghost use Rattle.std.specs.Prelude.{◌≡◌};
ghost use Rattle.rv_hart.specs.Registers.{registers_of};
ghost use Rattle.hart_moves.specs.Moves.{trap_of, write_trap};
ghost use Rattle.hart_turns.specs.Turns.{trap_in};

use hart_seat::{A0, A2};
use rv_hart::Hart;

/// Where an ecall passes its number: a7.
const A7: usize = 17;

/// The numbers of exit and of write.
const EXIT: u64 = 93;

const WRITE: u64 = 64;

/// -9, EBADF.
const BAD_FILE: u64 = u64::MAX - 8;
/// -38, ENOSYS.
const NO_SUCH_CALL: u64 = u64::MAX - 37;

/// What an ecall asks for.
#[derive(Clone, Copy, Debug, PartialEq, Eq)]
pub enum Trap {
    /// The end of the hart, with a code.
    Exits(u64),
    /// This value, at once.
    Gives(u64),
    /// A write, whose bytes are to be copied.
    Writes,
}

/// What an ecall asks for, by the hart's registers.
pub fn trap_of(hart: &Hart) -> Trap
    ensures { trap_in result ≡ trap_of (registers_of hart.now) }
{
    match hart.x[A7] {
        EXIT => Trap::Exits(hart.x[A0]),
        WRITE => write_trap(hart),
        _ => Trap::Gives(NO_SUCH_CALL),
    }
}

/// A write goes to 1 or 2.
fn write_trap(hart: &Hart) -> Trap
    ensures { trap_in result ≡ write_trap (registers_of hart.now) }
{
    if hart.x[A0] != 1 && hart.x[A0] != 2 {
        Trap::Gives(BAD_FILE)
    } else if hart.x[A2] == 0 {
        Trap::Gives(0)
    } else {
        Trap::Writes
    }
}
