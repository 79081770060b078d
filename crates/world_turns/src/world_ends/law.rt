//! What holds of the ends of every run.

ghost use Rattle.world_turns.specs.WorldEnds.Laws.{ExitsAreTold, FinalsBegin, FinalsLack, HartsMayEnd, RunsFinish, RunsFit, StartFits};
ghost use Rattle.world_turns.specs.WorldEnds.Laws.{TurnsKeepBefore, TurnsKeepFinals};
ghost use Rattle.world_turns.specs.WorldEnds.Laws.{SettlingKeepsBefore, SettlingKeepsInFinals};

/// The ends of the journal are those of the harts when a run starts, and stay so with every turn, when the
/// final destructors begin or lack memory, and when what is left at the end is settled.
pub fn ends_fit()
    ensures start { StartFits }
    ensures turns { TurnsKeepBefore }
    ensures final_turns { TurnsKeepFinals }
    ensures finals { FinalsBegin }
    ensures no_memory { FinalsLack }
    ensures settled_before { SettlingKeepsBefore }
    ensures settled_finals { SettlingKeepsInFinals }
{}

/// So a hart that runs may end.
pub fn harts_may_end()
    ensures { HartsMayEnd }
{}

/// The ends fit throughout a run. Once all harts have ended the journal says whether each did by exit; and
/// where every hart ended once, by exit, each object that was initialised was finalised.
pub fn runs_end_once()
    ensures fit { RunsFit }
    ensures exits { ExitsAreTold }
    ensures finished { RunsFinish }
{}
