//! How grants are settled, faults told, and ends noted.

ghost use Rattle.history_state.specs.Cycle as cycle;
ghost use Rattle.history_state.specs.Legal.{Legal};
ghost use Rattle.history_state.specs.Race as race;
ghost use Rattle.history_worked.specs.Settling as settling;

/// Where two harts race for a slot, one grant is bound, and the other saw the value of that one. It isn't
/// legal that it saw its own value, nor the lazy word, nor that it is bound, too.
pub fn slots_are_bound_once()
    ensures lost { Legal race.setting settling.lost_behind }
    ensures saw_its_own { Legal race.setting settling.saw_its_own → ⊥ }
    ensures saw_the_lazy_word { Legal race.setting settling.saw_the_lazy_word → ⊥ }
    ensures bound_twice { Legal race.setting settling.bound_twice → ⊥ }
{}

/// A fault that dlerror has told isn't kept any more: the next call tells of none, and it isn't legal that it
/// tells the same again.
pub fn faults_are_told_once()
    ensures none { Legal cycle.setting settling.told_none }
    ensures told_twice { Legal cycle.setting settling.told_twice → ⊥ }
{}

/// Once every hart has ended by exit, the final destructors begin with the object that was initialised last. It
/// isn't legal that they begin with another, nor that they begin while a hart runs.
pub fn finals_come_in_order()
    ensures out_of_order { Legal race.setting settling.out_of_order → ⊥ }
    ensures too_early { Legal race.setting settling.finalised_early → ⊥ }
{}

/// Hart 0 may end a second time, in the final destructors. It isn't legal that it does so before every hart has
/// ended, nor a third time, nor that another hart ends twice.
pub fn ends_come_once()
    ensures again { Legal race.setting settling.ended_again }
    ensures too_early { Legal race.setting settling.ended_early → ⊥ }
    ensures thrice { Legal race.setting settling.ended_thrice → ⊥ }
    ensures other { Legal race.setting settling.other_again → ⊥ }
{}
