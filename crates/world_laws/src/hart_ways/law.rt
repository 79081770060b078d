//! What each hart of a run did.

ghost use Rattle.world_laws.specs.HartWays.Laws.{RunsFollow};

/// Whatever the schedule, each hart follows to its end in the journal of the run. The first one goes on
/// with the final destructors, where all have exited and an object is left, unless memory is wanted.
pub fn harts_follow()
    ensures { RunsFollow }
{
    world_turns::runs_end_once();
}
