//! What holds of the turns of a run.

ghost use Rattle.world_answers.specs.GuestsPart.Counting.{TurnsAreCounted};
ghost use Rattle.world_answers.specs.GuestsPart.Laws.{EndsAreTurns, EndsMayCome};

/// A hart that runs may end, with its turn taken but for that, and this is its turn then.
pub fn ends_are_turns()
    ensures may { EndsMayCome }
    ensures turn { EndsAreTurns }
{
    crate::guests::guest_worlds::guests_may_turn();
    crate::guests::guest_worlds::guests_take_turns();
    world_memory::others_leave_memory();
}

/// A turn refuses no opening but the one that it is, so that what the library's counts show of that they show of
/// each refusal among the turn's events, and of all of them together.
pub fn refusals_are_counted()
    ensures { TurnsAreCounted }
{}
