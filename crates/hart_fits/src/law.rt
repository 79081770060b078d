//! What other harts leave of a hart, and its own moves.

ghost use Rattle.hart_fits.specs.Fits.{FitsMayEnd, OthersLeaveHart, OwnMovesLeaveHart, StartFits};
ghost use Rattle.hart_fits.specs.Finals.{FinalsBeginFit, NobodysLeaveFinals, OwnMovesFit, OwnMovesLeaveFinals};
ghost use Rattle.hart_fits.specs.Others.{OthersLeaveFrames};
ghost use Rattle.hart_fits.specs.Over.{RunningIsNotOver, UnexitedIsNotOver};
ghost use Rattle.hart_fits.specs.Own.{OwnMovesKeepFrames};
ghost use Rattle.hart_fits.specs.Owners.{OwnersEnd, StartHasOwners};
ghost use Rattle.hart_fits.specs.Waits.{OthersLeaveWaits, OwnMovesLeaveWaits, WaitsAreShown};

/// The events of other harts leave the functions that a hart has still to run those of its openings and
/// closings, before every hart has ended by exit.
pub fn others_leave_frames()
    ensures { OthersLeaveFrames }
{
    scope_rule::serials_follow();
    scope_rule::found_stands();
    history_state::serials_are_in_order();
    history_state::each_dies_once();
    history_calls::constructors_follow();
    history_calls::destructors_follow();
}

/// While a hart runs, there was no moment at which every hart had ended. Where a hart ended otherwise than
/// by exit, not every hart has exited.
pub fn running_is_not_over()
    ensures runs { RunningIsNotOver }
    ensures ended { UnexitedIsNotOver }
{}

/// Where all events are of harts of the machine, so are those that ended; and startup's events are.
pub fn events_have_owners()
    ensures ends { OwnersEnd }
    ensures start { StartHasOwners }
{}

/// A hart that waits knows what its call was shown, and that none of its events came since: other harts'
/// events leave that so, and its own moves do while it goes on. Where its turn is to wait it is so still.
pub fn waits_stay()
    ensures others { OthersLeaveWaits }
    ensures own { OwnMovesLeaveWaits }
    ensures shown { WaitsAreShown }
{}

/// A hart's own move leaves the functions that it has to run those of its openings and closings.
pub fn own_moves_keep()
    ensures { OwnMovesKeepFrames }
{
    scope_rule::serials_follow();
    scope_rule::found_stands();
    history_state::serials_are_in_order();
    history_state::each_dies_once();
    history_state::closed_are_spare();
    history_calls::constructors_follow();
    history_calls::destructors_follow();
}

/// Each hart fits as startup sets it off. Before the final destructors the events of other harts leave a
/// hart fit that runs, and so do its own moves. A hart that fits and runs may end.
pub fn harts_fit()
    ensures start { StartFits }
    ensures others { OthersLeaveHart }
    ensures own { OwnMovesLeaveHart }
    ensures may_end { FitsMayEnd }
{
    others_leave_frames();
    running_is_not_over();
    own_moves_keep();
    hart_moves::turns_append();
    history_calls::constructors_follow();
}

/// In the final destructors the first hart's own moves leave it fit while it goes on, and so do events of
/// nobody; and it fits where they begin.
pub fn finals_fit()
    ensures own { OwnMovesLeaveFinals }
    ensures nobodys { NobodysLeaveFinals }
    ensures begin { FinalsBeginFit }
{
    scope_rule::serials_follow();
    scope_rule::found_stands();
    history_state::serials_are_in_order();
    history_state::each_dies_once();
    history_state::closed_are_spare();
    history_calls::constructors_follow();
    history_calls::destructors_follow();
    hart_moves::turns_append();
}

/// A hart's own move, before the final destructors and in them, leaves it fit while it goes on.
pub fn own_moves_fit()
    ensures { OwnMovesFit }
{
    harts_fit();
    finals_fit();
    world_turns::turns_keep_writes();
}
