//! Worked schedules.

ghost use Rattle.world_turns.specs.SchedulesPart.Worked.{InOrder, NoHart, NoTurn, Once, Race};

/// Items with a count and without one, between commas, and the schedule that has none.
pub fn schedules_are_written()
    ensures race { Race }
    ensures once { Once }
    ensures in_order { InOrder }
{}

/// Of one hart there is no second one, and no item gives no turn.
pub fn schedules_are_none()
    ensures no_hart { NoHart }
    ensures no_turn { NoTurn }
{}
