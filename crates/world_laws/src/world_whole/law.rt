//! What holds of a run at its end.

ghost use Rattle.world_laws.specs.WorldWhole.Laws.{RunsAreWhole, TurnsKeepSeen};

/// What a grant that is lost saw stays in its slot, as long as its object is mapped. So at the end of a
/// run its journal is whole.
pub fn runs_are_whole()
    ensures turn { TurnsKeepSeen }
    ensures run { RunsAreWhole }
{
    scope_rule::serials_follow();
    scope_rule::found_stands();
    scope_rule::reads_candidates();
    history_state::slots_begin();
    history_state::none_is_lazy();
    history_state::images_are_mapped();
    history_state::serials_are_in_order();
    history_memory::slots_stand();
    world_turns::turns_stay_sound();
    world_turns::runs_start_sound();
    world_turns::runs_stay_sound();
    world_turns::runs_end_once();
    crate::world_slots::turns_keep_slots();
}
