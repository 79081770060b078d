//! What holds of every turn of a hart.

ghost use Rattle.hart_moves.specs.Laws.{EndedStays, OneEnd, OneHart, TurnsAreOwn, TurnsCount, TurnsLegal};

/// What a hart did in its turn settles where the turn leaves it, and what it did turn after turn where it
/// ends.
pub fn turns_leave_one_hart()
    ensures turn { OneHart }
    ensures turns { OneEnd }
{
    rv_hart::calls_determine_the_end();
    rv_hart::steps_join();
}

/// A history that is legal before a turn is legal with the turn's events, and they are the hart's own.
pub fn turns_are_legal()
    ensures legal { TurnsLegal }
    ensures own { TurnsAreOwn }
{}

/// Each turn counts, but the end of a hart whose turns are used up, and no turn changes how many turns
/// the hart has. A hart that has ended takes none.
pub fn turns_are_counted()
    ensures count { TurnsCount }
    ensures ended { EndedStays }
{}
