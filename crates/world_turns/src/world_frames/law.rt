//! What holds of the frames of every run.

ghost use Rattle.world_turns.specs.WorldFrames.Laws.{ClosingsPass, FinalsBeginBelong, FinalsFinish, FinalsKeepFrames, FinalsPass, FramesClose};
ghost use Rattle.world_turns.specs.WorldFrames.Laws.{FramesFinish, FramesPass, OpeningsPass, RunsBelong, SettlingKeepsFinals, SettlingKeepsFrames};
ghost use Rattle.world_turns.specs.WorldFrames.Laws.{StartBelongs, TurnsKeepFrames};

/// When a run starts each frame is of an opening, and so it is, of an opening or a closing, behind each
/// turn before the final destructors.
pub fn frames_belong()
    ensures start { StartBelongs }
    ensures turns { TurnsKeepFrames }
{
    scope_rule::serials_follow();
    scope_rule::found_stands();
    history_state::serials_are_in_order();
    history_state::each_dies_once();
    history_state::closed_are_spare();
    history_calls::constructors_follow();
    history_calls::destructors_follow();
}

/// So it is behind each part of a run, until the final destructors begin.
pub fn runs_belong()
    ensures { RunsBelong }
{
    crate::runs_start_sound();
    crate::turns_stay_sound();
    crate::world_ends::ends_fit();
    frames_belong();
}

/// The objects in front may be passed: those of a frame, of an opening and of a closing; and a closing
/// whose functions have run has finished, and may be unmapped, but for what open grants hold.
pub fn functions_may_pass()
    ensures frames { FramesPass }
    ensures openings { OpeningsPass }
    ensures closings { ClosingsPass }
    ensures finished { FramesFinish }
    ensures closed { FramesClose }
{
    history_calls::constructors_follow();
    history_calls::destructors_follow();
}

/// In the final destructors the first hart runs those of one object, until it ends, below what they have
/// begun themselves: when they begin, and behind each turn.
pub fn finals_belong()
    ensures begin { FinalsBeginBelong }
    ensures turns { FinalsKeepFrames }
{
    scope_rule::serials_follow();
    scope_rule::found_stands();
    history_state::serials_are_in_order();
    history_state::each_dies_once();
    history_state::closed_are_spare();
    history_calls::constructors_follow();
    history_calls::destructors_follow();
    crate::world_ends::ends_fit();
}

/// What is settled leaves frames as they are, before the final destructors and in them.
pub fn settling_keeps_frames()
    ensures frames { SettlingKeepsFrames }
    ensures finals { SettlingKeepsFinals }
{}

/// So that object may be finalised when they have run, and the next of all may pass.
pub fn finals_may_pass()
    ensures own { FinalsFinish }
    ensures next { FinalsPass }
{}
