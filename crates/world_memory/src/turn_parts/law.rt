//! What holds of each part.

ghost use Rattle.world_memory.specs.TurnParts.Freed.{FreedIsDue, FreedMoves, FreedTakesTurns};
ghost use Rattle.world_memory.specs.TurnParts.Leaving.{AllLeave, AllStay, OneStays, OthersLeave};
ghost use Rattle.world_memory.specs.TurnParts.Settling.{NextMaySettle, SettlingMayCome};

/// A hart whose grant is settled is due the same turn, and where that turn settles it is one of the hart
/// as it was before.
pub fn freed_harts_move()
    ensures due { FreedIsDue }
    ensures moves { FreedMoves }
    ensures turn { FreedTakesTurns }
{}

/// In a sound world harts may be settled one after another, each behind those before it.
pub fn settling_may_come()
    ensures all { SettlingMayCome }
    ensures next { NextMaySettle }
{
    world_turns::turns_stay_sound();
}

/// But for openings that succeed, unmappings and blocks, events neither reserve pages nor take any away,
/// and memory stays as it is.
pub fn others_leave_memory()
    ensures leave { OthersLeave }
    ensures all { AllLeave }
    ensures one_stays { OneStays }
    ensures all_stay { AllStay }
{}
