//! Whose events the journal of a run has.

ghost use Rattle.world_laws.specs.RunJournals.Laws.{RunsHaveJournals};

/// The journal of each run is startup's events and then those of its harts, none of which acts once it has
/// ended, the first one in the final destructors apart.
pub fn runs_have_journals()
    ensures { RunsHaveJournals }
{
    history_calls::run_journals_grow();
    hart_moves::turns_are_legal();
    hart_moves::turns_are_counted();
    hart_moves::turns_append();
    world_turns::ends_fit();
    world_turns::harts_may_end();
    world_turns::runs_end_once();
}
