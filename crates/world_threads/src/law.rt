//! What holds of runs on threads.

ghost use Rattle.world_threads.specs.Slots.{RunsEndSlots};

/// Each exchange of a slot of an object that is mapped at the end of a run found one value, or put it there:
/// the one that the slot got at load, or that of the one grant of it that is bound. Or no grant of it was made.
pub fn slots_end()
    ensures { RunsEndSlots }
{
    history_state::grants_are_tidy();
}
