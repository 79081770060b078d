//! What holds of every run, and of a hart's next turn in it.

ghost use Rattle.world_turns.specs.RunningWorlds.Laws.{CompletesPass, FinalisesMay, FinalsLackRuns, FinalsRun, HartsMayEnd, IdleIsFree};
ghost use Rattle.world_turns.specs.RunningWorlds.Laws.{SettledRuns, StartRuns, TurnsRun, UnmapsFinished};

/// A run goes on with its start, each turn, the begin of the final destructors or want of memory for them,
/// and the settling of what was done.
pub fn runs_go_on()
    ensures start { StartRuns }
    ensures turns { TurnsRun }
    ensures finals { FinalsRun }
    ensures no_memory { FinalsLackRuns }
    ensures settling { SettledRuns }
{
    history_state::startup_is_past();
    crate::runs_start_sound();
    crate::turns_stay_sound();
    crate::world_ends::ends_fit();
    crate::world_frames::frames_belong();
    crate::world_frames::finals_belong();
    crate::world_frames::settling_keeps_frames();
}

/// A hart that runs may end. One that is at no slot has no open grant. A closing that is to be unmapped has
/// finished. An object whose functions have run, with those behind it that have none, may pass; and in the
/// final destructors its own event may come, if it is still to.
pub fn turns_meet_premises()
    ensures ends { HartsMayEnd }
    ensures free { IdleIsFree }
    ensures unmaps { UnmapsFinished }
    ensures completes { CompletesPass }
    ensures finalises { FinalisesMay }
{
    crate::world_ends::harts_may_end();
    crate::world_frames::functions_may_pass();
    crate::world_frames::finals_may_pass();
}
