//! What holds of trails.

ghost use Rattle.hart_trails.specs.Ends.{EndIsLast, OneEndOfTrail, StartIsFresh};
ghost use Rattle.hart_trails.specs.Fuel.{FuelBounds};
ghost use Rattle.hart_trails.specs.Laws.{EndsFollow, MarksFollow, TrailsFollow, TrailsStay, TurnsBehind};
ghost use Rattle.hart_trails.specs.Worked.{FollowsExchange};

use hart_moves::turns_are_counted;

/// A trail goes on with what one more turn leaves; and it is one over each longer journal.
pub fn trails_grow()
    ensures behind { TurnsBehind }
    ensures stay { TrailsStay }
{}

/// A hart follows by the turns that its trail is of; to its end, where the trail is whole.
pub fn trails_follow()
    ensures turns { TrailsFollow }
    ensures ends { EndsFollow }
{}

/// A whole trail leads to the last end that the journal has of its hart, whatever way it is taken for; and
/// each hart is fresh as startup sets it off.
pub fn trails_end()
    ensures last { EndIsLast }
    ensures one { OneEndOfTrail }
    ensures start { StartIsFresh }
{}

/// A hart asks for a block of thread-local storage only where it keeps none: in a whole trail whose readings
/// of the generation show what is kept, no answer without an event comes twice for a module and a generation.
pub fn blocks_are_asked_once()
    ensures { MarksFollow }
{}

/// A hart takes no more turns than its fuel, but for three: the two of a slot that was granted in the last one,
/// and the one in which it ends.
pub fn fuel_bounds_turns()
    ensures { FuelBounds }
{
    turns_are_counted();
}

/// A worked trail: an exchange that won, and the end of its offer.
pub fn trails_are_worked()
    ensures { FollowsExchange }
{}
