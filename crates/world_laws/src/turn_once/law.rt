//! What the files and a world settle.

ghost use Rattle.world_laws.specs.TurnOnce.Laws.{OneTurn};

/// Two turns of one hart from one world leave the same world, where neither met a failed read or want of
/// memory. What failed before doesn't matter.
pub fn turns_are_one()
    ensures { OneTurn }
{
    crate::step_once::steps_are_one();
    hart_moves::turns_leave_one_hart();
    history_calls::one_answer();
    world_turns::turns_are_due();
    world_turns::turns_stay_sound();
}
