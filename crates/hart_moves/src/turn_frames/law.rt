//! What every turn makes of its hart's frames.

ghost use Rattle.hart_moves.specs.TurnFrames.Closings.{ClosesAtOnce, ReturnsBehind, UnmapsAll, UnmapsNext};
ghost use Rattle.hart_moves.specs.TurnFrames.Leaves.{TurnsLeaveFrames};

use history_state::memory_changes;

/// Each turn leaves the frames, or begins one by an opening or a closing, goes on with the first, or ends
/// it; and it initialises, finalises and unmaps objects of that frame alone. The frame of the final
/// destructors goes on with the object that is next after each event, until none is left.
pub fn turns_leave_frames()
    ensures { TurnsLeaveFrames }
{}

/// A dlclose that gives its value at once gives 0, and nothing dies by it. Else the hart comes, once the
/// destructors of its closing have run, to the linker's function that unmaps; the closing goes with the
/// unmapping of all that died alone, by which the dlclose returns 0 to where it was called; and no word of
/// what was unmapped has a role then.
pub fn closings_unmap_first()
    ensures at_once { ClosesAtOnce }
    ensures next { UnmapsNext }
    ensures behind { ReturnsBehind }
    ensures gone { UnmapsAll }
{
    memory_changes();
}
