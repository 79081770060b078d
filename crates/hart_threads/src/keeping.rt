//! Requests of thread-local storage whose block the hart keeps.

ghost use Rattle.std.specs.Prelude.{◌≡◌, ◌<◌};
ghost use Rattle.hart_threads.specs.Keeping.{ReadsBlock};

use hart_linker::HartBlocks;
use hart_seat::{LinkedHart, variable_at};
use word_memory::{HartSeat, Memory, Naming, generation};

/// Answers a call of `__tls_get_addr` with the block that the hart keeps of the module, and says whether
/// it keeps one at the generation of now. The trail has what was read.
pub fn kept_block<J: Naming>(
    memory: &Memory<J>,
    seat: &mut HartSeat<J>,
    hart: &mut LinkedHart,
    blocks: &HartBlocks,
    number: u64,
    offset: u64,
) -> bool
    requires { hart.old.hart.turns < hart.old.hart.fuel }
    ensures { ReadsBlock seat.old seat.new blocks.now number offset hart.old.hart hart.new.hart result }
{
    let generation = generation(memory, seat, number);
    let Some(block) = blocks.kept(generation, number) else {
        return false;
    };
    hart.settle();
    hart.return_with(variable_at(block, offset));
    hart.spend();
    true
}
