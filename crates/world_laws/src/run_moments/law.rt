//! What is true of each world that a run may come to.

ghost use Rattle.world_laws.specs.RunMoments.Laws.{ClosingsComeToReturn, GrantsAreMadeByTurns, JournalsAreTrue, ReachedIsTrue, ReachedStaysTrue, RunsAreTrue, TurnsAreTrue};

/// A legal journal is a true history, whoever kept it: what each slot was bound to, at load or by a grant,
/// the rules chose at one moment, and it enters the very object that was chosen; a slot's lazy word enters
/// its own object; blocks of thread-local storage are apart, and look-ups count from the hart's own; what is
/// to be unmapped died by one closing, when nothing needed it.
pub fn journals_are_true()
    ensures { JournalsAreTrue }
{
    scope_rule::serials_follow();
    scope_rule::found_stands();
    scope_rule::reads_candidates();
    seg_image::pages_hold_segments();
    history_state::images_are_mapped();
    history_state::slots_begin();
    history_state::blocks_are_apart();
    history_state::grants_are_held();
    history_state::slots_lead_to_rx();
    history_state::slots_enter_code();
    history_state::loads_enter_code();
}

/// Behind any legal journal a hart's turn is true: each grant that it appends is made inside the hart's own
/// call of the slot's resolver, its call of `__tls_get_addr` answers the address of the variable in its own
/// block, its dlclose returns 0 at once only where nothing dies, and else with the unmapping of all that died.
pub fn turns_are_true()
    ensures { TurnsAreTrue }
{
    history_state::memory_changes();
    link_open_images::harts_have_new_blocks();
    hart_moves::turns_are_legal();
    hart_moves::closings_unmap_first();
}

/// In each world that turns lead to from a start, in whichever order the harts take them, the journal is a
/// true legal history; each slot of a mapped object holds what it should and enters the very object that was
/// chosen, which is mapped; harts have ended as their last Ended events say; and the next turn is true. From
/// each such world to each later one the journal grows, and a slot that isn't lazy reads the same while its
/// object is mapped.
pub fn worlds_are_true()
    ensures reached { ReachedIsTrue }
    ensures later { ReachedStaysTrue }
{
    scope_rule::serials_follow();
    scope_rule::found_stands();
    scope_rule::reads_candidates();
    history_memory::slots_stand();
    world_turns::ends_fit();
    world_turns::frames_belong();
    world_turns::finals_belong();
    world_turns::settling_keeps_frames();
    world_turns::runs_start_sound();
    world_turns::slots_are_true();
    crate::world_slots::later_worlds_keep_slots();
    journals_are_true();
    turns_are_true();
}

/// Each grant of such a world's journal was appended at its place by a turn of its own hart, whose call of
/// the slot's resolver was due.
pub fn grants_are_made_by_turns()
    ensures { GrantsAreMadeByTurns }
{}

/// The closing of a dlclose that was called stands on what its hart ran then, world after world, until the
/// turn that unmaps all that died by it and returns 0 to where it was called, or the hart ends.
pub fn closings_come_to_return()
    ensures { ClosingsComeToReturn }
{
    worlds_are_true();
}

/// So it is at each moment of a run, from its start to the world in which all is settled; and how its harts
/// have ended is how their last Ended events say.
pub fn moments_are_true()
    ensures { RunsAreTrue }
{
    crate::world_slots::later_worlds_keep_slots();
    worlds_are_true();
}
