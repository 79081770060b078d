//! What holds of slots through every turn, and from each world of a run to each later one.

ghost use Rattle.world_laws.specs.WorldSlots.Laws.{LaterIsSound, LaterKeepsSlots, RunsGoOn, TurnsKeepSlots};

/// A slot that isn't lazy reads the same behind each turn, where its object is mapped before and after
/// it: harts can't store to it, an exchange finds it taken, and an event leaves it alone.
pub fn turns_keep_slots()
    ensures { TurnsKeepSlots }
{
    scope_rule::serials_follow();
    scope_rule::found_stands();
    scope_rule::reads_candidates();
    history_state::slots_begin();
    history_state::none_is_lazy();
    history_state::images_are_mapped();
    history_memory::slots_stand();
    history_memory::slots_stay();
    world_turns::turns_stay_sound();
}

/// So it does in every later world of a run in which its object is still mapped: behind turns, when the
/// final destructors begin or lack memory, and when what is left is settled. A run goes from its start to
/// its end by these steps.
pub fn later_worlds_keep_slots()
    ensures sound { LaterIsSound }
    ensures slots { LaterKeepsSlots }
    ensures runs { RunsGoOn }
{
    scope_rule::serials_follow();
    scope_rule::found_stands();
    history_state::serials_are_in_order();
    history_state::images_are_mapped();
    world_turns::turns_stay_sound();
    turns_keep_slots();
}
