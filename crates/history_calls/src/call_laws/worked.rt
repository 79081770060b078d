//! Worked counts, readings and refusals.

ghost use Rattle.history_calls.specs.CallLaws.Worked.{FailsTo, MissesTo, ProgramMissesTo, ReadsNoneBy, RefusalsAre, same_folder, two_folders};

/// A missing library raises the misses once for each folder, the same folder counted once; a missing
/// program has one path. A read that failed raises the faults.
pub fn counts_show()
    ensures both { MissesTo two_folders 5 }
    ensures not_one { MissesTo two_folders 4 → ⊥ }
    ensures same_once { MissesTo same_folder 4 }
    ensures program { ProgramMissesTo 4 }
    ensures not_none { ProgramMissesTo 3 → ⊥ }
    ensures fails { FailsTo 2 }
    ensures not_invented { FailsTo 1 → ⊥ }
{}

/// Nothing is read by bad flags or with RTLD_NOLOAD; without them a library may have to be read.
pub fn reads_only_if_it_has_to()
    ensures flags { ReadsNoneBy 3 }
    ensures noload { ReadsNoneBy 5 }
    ensures may_read { ReadsNoneBy 1 → ⊥ }
{}

/// Of what a call comes to only a refusal is one: neither a value nor another try.
pub fn refusals_are_told_apart()
    ensures { RefusalsAre }
{}
