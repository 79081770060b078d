//! What holds of every turn.

ghost use Rattle.world_turns.specs.Counts.{CountsJoin, NoneIsInvented, NothingShows, RunsShowInCounts};
ghost use Rattle.world_turns.specs.Next.{OneDue, SettlingKeepsDue};
ghost use Rattle.world_turns.specs.Throughout.{ConstructorsKeep, FinalsKeep, ItemsKeep, RoundsKeep, RunsAreSound, RunsEnd, RunsGrantHarts, RunsLeaveNoGrant};
ghost use Rattle.world_turns.specs.Throughout.{RunsSettle};
ghost use Rattle.world_turns.specs.Laws.{FinalsBeginSound, FinalsLackSound, SettlingIsSound, SoundIsSlotTrue, StartIsSound, TurnsAreSound};

/// A run is sound when it starts: its journal is legal, memory is as the journal says, and no hart has a
/// slot.
pub fn runs_start_sound()
    ensures { StartIsSound }
{
    history_memory::memory_begins();
    history_memory::events_keep();
}

/// And every turn leaves it sound: what is settled may be settled, an exchange leaves the winner's value,
/// events remake memory, and calls of the bus store to words alone that harts may write. So it stays when
/// the final destructors begin or lack memory, and when what is left at the end is settled.
pub fn turns_stay_sound()
    ensures turns { TurnsAreSound }
    ensures finals { FinalsBeginSound }
    ensures no_memory { FinalsLackSound }
    ensures settling { SettlingIsSound }
{
    scope_rule::serials_follow();
    scope_rule::found_stands();
    scope_rule::reads_candidates();
    history_state::slots_begin();
    history_state::none_is_lazy();
    history_state::images_are_mapped();
    history_state::memory_changes();
    history_memory::events_keep();
    history_memory::exchanges_keep();
    history_memory::grants_settle();
    history_memory::slots_stand();
}

/// What a library counted in one turn after another it counted in all of them: a read that failed and a
/// library that is missing show in its counts, and one that is made up doesn't.
pub fn counts_show()
    ensures join { CountsJoin }
    ensures runs { RunsShowInCounts }
    ensures nothing { NothingShows }
    ensures not_invented { NoneIsInvented }
{}

/// A run is sound behind each of its parts, as often as turns come in them, and at its end. Each hart has
/// ended then, and no grant is open.
pub fn runs_stay_sound()
    ensures constructors { ConstructorsKeep }
    ensures items { ItemsKeep }
    ensures rounds { RoundsKeep }
    ensures finals { FinalsKeep }
    ensures run { RunsAreSound }
    ensures over { RunsEnd }
    ensures no_grant { RunsLeaveNoGrant }
    ensures granted { RunsGrantHarts }
    ensures settled { RunsSettle }
{
    runs_start_sound();
    turns_stay_sound();
}

/// What is settled before a turn doesn't change which turn it is: from one world a hart takes turns of one
/// kind.
pub fn turns_are_due()
    ensures settling { SettlingKeepsDue }
    ensures turn { OneDue }
{}

/// In a sound run each slot of each mapped object holds its first word or the value of the one grant that
/// took it, and leads to code or is 0.
pub fn slots_are_true()
    ensures { SoundIsSlotTrue }
{
    history_memory::slots_are_true();
}
