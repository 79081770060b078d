//! How calls and functions move a hart's registers.

ghost use Rattle.std.specs.Prelude.{◌≡◌};
ghost use Rattle.rv_hart.specs.Registers.{registers_of};
ghost use Rattle.hart_moves.specs.Registers.{entered, returned};
ghost use Rattle.hart_moves.specs.Starting.{starting_registers};

use history_event::HartEntry;
use rv_hart::Hart;

/// Where a constructor or a destructor returns to.
pub const NEXT_FUNCTION: u64 = 0x80_f080;

/// The register of the return address (psABI, "Integer Register Convention").
pub const RA: usize = 1;
/// The register of the first argument, and of what a call returns.
pub const A0: usize = 10;
/// That of the second argument.
pub const A1: usize = 11;
/// That of the third argument.
pub const A2: usize = 12;

/// A hart with the registers with which it starts.
pub fn start(entry: HartEntry) -> Hart
    ensures { registers_of result ≡ starting_registers entry }
{
    Hart::new(entry.pc, entry.sp, entry.tp, entry.a0)
}

/// A call returns to an address with a value.
pub fn return_with(hart: &mut Hart, to: u64, value: u64)
    ensures { registers_of hart.new ≡ returned to value (registers_of hart.old) }
{
    hart.x[A0] = value;
    hart.pc = to;
}

/// A function that the linker has run is entered.
pub fn enter_function(hart: &mut Hart, function: u64)
    ensures { registers_of hart.new ≡ entered function (registers_of hart.old) }
{
    hart.x[RA] = NEXT_FUNCTION;
    hart.x[A0] = 0;
    hart.x[A1] = 0;
    hart.x[A2] = 0;
    hart.pc = function;
}
