//! Worked summaries.

ghost use Rattle.std.specs.Prelude.{◌≡◌, Some, None};
ghost use Rattle.lib_gen.specs.Summary.{summary_line};
ghost use Rattle.lib_gen.specs.Worked as worked;

/// Runs in which each slot is bound, of the smallest set and of one of the largest, and one that stops early.
pub fn runs_are_summed_up()
    ensures smallest { summary_line 0 (worked.all_bound 40) (Some 32) ≡ worked.smallest_summary }
    ensures large { summary_line 3875 (worked.all_bound 4160) (Some 4096) ≡ worked.large_summary }
    ensures stopped { summary_line 57 (worked.all_bound 3) None ≡ worked.stopped_summary }
{}
