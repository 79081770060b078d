//! Thread-local storage.

ghost use Rattle.std.specs.Prelude.{◌≡◌};
ghost use Rattle.history_calls.specs.Gives.{variable_at};

/// Offsets count from so many bytes behind a block's start (psABI, "Thread Local Storage").
const BIAS: u64 = 0x800;

/// The address of the variable at an offset in a block, as `__tls_get_addr` answers it.
pub fn variable_at(block: u64, offset: u64) -> u64
    ensures { result ≡ variable_at block offset }
{
    block.wrapping_add(offset).wrapping_add(BIAS)
}
