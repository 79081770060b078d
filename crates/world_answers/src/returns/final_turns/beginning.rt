//! How the final destructors begin.

ghost use Rattle.std.specs.Prelude.{◌≡◌, [], IfOk, OnErr};
ghost use Rattle.std.specs.Bool.{OnFalse, OnTrue};
ghost use Rattle.history_state.specs.After.{after};
ghost use Rattle.hart_moves.specs.Moves.{all_finis};
ghost use Rattle.world_answers.specs.ReturnsPart.FinalTurns.Begins.{StartsFinals};

use crate::returns::final_turns::turn::only_at;
use hart_seat::LinkedHart;
use history_event::HartEntry;
use link_calls::final_functions;
use link_state::LinkState;
use std::alloc::{AllocError, Global};

/// The hart, which has ended by exit with a code, gets its starting registers again, and is to run the
/// destructors of the object that comes first of all that are left. Answers whether there is one: else
/// nothing has changed.
///
/// # Errors
///
/// Want of memory. Nothing has changed then.
pub fn begin(
    alloc: Global,
    state: &LinkState,
    hart: &mut LinkedHart,
    entry: HartEntry,
    code: u64,
) -> Result<bool, AllocError>
    ensures begins { IfOk result (λ some. OnTrue some (StartsFinals (after state.now.events) entry code hart.old.hart hart.new.hart)) }
    ensures none { IfOk result (λ some. OnFalse some (all_finis (after state.now.events) ≡ [])) }
    ensures stays { IfOk result (λ some. OnFalse some (hart.new.hart ≡ hart.old.hart)) }
    ensures err { OnErr result (hart.new.hart ≡ hart.old.hart) }
{
    let functions = final_functions(alloc, state)?;
    if functions.is_empty() {
        return Ok(false);
    }
    hart.make_room()?;
    let first = only_at(functions, 0);
    hart.restart(entry);
    hart.run_last(code, first, 0);
    Ok(true)
}
