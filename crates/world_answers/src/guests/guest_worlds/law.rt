//! What holds of the turns of a run.

ghost use Rattle.world_answers.specs.GuestsPart.GuestWorlds.Laws.{CallsNow, EndsNow, FinalsBeginAt, FinalsLackAt, FinalsNow, FirstEndsNow, PassesNow};
ghost use Rattle.world_answers.specs.GuestsPart.GuestWorlds.Laws.{QuietTurns, ServiceTurns, SettlesNow, StartIsAt, TurnsStayAt};

/// How a turn of the world is put together of what its hart did, and what that made of memory.
pub fn guests_take_turns()
    ensures quiet { QuietTurns }
    ensures service { ServiceTurns }
{}

/// What the next turn of a hart meets: grants may be settled, and the run is at a moment as before; a hart that
/// runs may end; one that calls the linker may make its call; objects whose functions have run may pass.
pub fn guests_may_turn()
    ensures settles { SettlesNow }
    ensures ends { EndsNow }
    ensures first { FirstEndsNow }
    ensures calls { CallsNow }
    ensures passes { PassesNow }
    ensures finals { FinalsNow }
{
    history_journal::accepted_object();
    world_turns::runs_go_on();
    world_turns::turns_meet_premises();
    world_memory::settling_may_come();
    world_turns::turns_keep_writes();
    world_turns::worlds_keep_writes();
    world_turns::finals_may_pass();
    crate::ends_are_few();
    crate::finals_go_on();
}

/// A run is at a moment when it starts, behind each turn, and when its final destructors begin or lack memory.
pub fn runs_stay()
    ensures start { StartIsAt }
    ensures turns { TurnsStayAt }
    ensures begins { FinalsBeginAt }
    ensures lacks { FinalsLackAt }
{
    history_journal::accepted_object();
    world_turns::runs_go_on();
    world_turns::worlds_keep_writes();
    world_turns::ends_fit();
    history_calls::files_only_narrow();
}
