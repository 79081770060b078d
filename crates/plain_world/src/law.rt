//! What holds of a run that has started.

ghost use Rattle.plain_world.specs.Laws.{HandedIsRun, PlayedIsRun};

/// A run that starts, and is played by a schedule from there on, is a run by that schedule. So it is where turns
/// were taken by hand before it was played: the first hart's while it ran startup's constructors, and behind them
/// any hart's, which then come first in the schedule.
pub fn played_worlds_are_runs()
    ensures played { PlayedIsRun }
    ensures by_hand { HandedIsRun }
{}
