//! What the files, the setup and the schedule settle.

ghost use Rattle.world_laws.specs.RunOnce.Laws.{OneRun};

/// Two runs by one schedule come to the same world, where neither met a failed read or want of memory.
pub fn runs_are_one()
    ensures { OneRun }
{
    history_calls::one_startup();
    world_turns::runs_start_sound();
    world_turns::turns_stay_sound();
    crate::turn_once::turns_are_one();
}
