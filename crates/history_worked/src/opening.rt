//! What openings and closings come to.

ghost use Rattle.history_state.specs.Late as late;
ghost use Rattle.history_state.specs.Legal.{Legal};
ghost use Rattle.history_state.specs.Namespaces as apart;
ghost use Rattle.history_worked.specs.Opening as opening;

/// A library with DF_1_NODELETE stays when its last opening is closed, and so does one that was opened with
/// RTLD_NODELETE; another dies.
pub fn nodelete_stays()
    ensures object { Legal opening.setting opening.object_stays }
    ensures object_dies { Legal opening.setting opening.object_dies → ⊥ }
    ensures opened { Legal opening.setting opening.opening_stays }
    ensures opened_dies { Legal opening.setting opening.opening_dies → ⊥ }
    ensures other { Legal opening.setting opening.other_dies }
{}

/// A library that is in the second folder alone is loaded from there, and by that path.
pub fn the_first_candidate_is_read()
    ensures second { Legal opening.setting opening.found_in_second }
    ensures not_first { Legal opening.setting opening.named_by_first → ⊥ }
{
    history_calls::one_answer();
}

/// A library that needs a version that isn't there, and more pages than there are, is refused for the version.
pub fn versions_come_before_room()
    ensures version { Legal opening.setting opening.lacks_version }
    ensures not_room { Legal opening.setting opening.lacks_room → ⊥ }
{
    history_calls::one_answer();
}

/// A hart that closes a library can't open it before it is unmapped.
pub fn what_closes_is_refused()
    ensures refused { Legal late.setting opening.closing_refused }
    ensures not_opened { Legal late.setting opening.closing_opened → ⊥ }
{
    history_calls::one_answer();
}

/// A new namespace has the least number that is free, and a namespace ends with its last object: its number is
/// free again then.
pub fn numbers_come_again()
    ensures not_another { Legal apart.setting opening.in_another → ⊥ }
    ensures again { Legal apart.setting opening.opened_again }
    ensures not_elsewhere { Legal apart.setting opening.opened_elsewhere → ⊥ }
{
    history_calls::one_answer();
    history_state::namespaces_are_apart();
}
