//! Worked runs: how they end, and what is printed of them.

ghost use Rattle.std.specs.Prelude.{◌≡◌, ◌++◌, [], ◌∷◌};
ghost use Rattle.history_event.specs.declared.hart_end.HartEnd.TheVariants as ends;
ghost use Rattle.history_state.specs.FirstMatch.{first_match};
ghost use Rattle.history_state.specs.Race.{race};
ghost use Rattle.trace_text.specs.RunTexts.Counting.{counts_of};
ghost use Rattle.trace_text.specs.RunTexts.Ends.{AreLastEnds, IsRunEnd, end_line, run_status};
ghost use Rattle.trace_text.specs.RunTexts.Printed.{guest_output, journal_lines};
ghost use Rattle.trace_text.specs.RunTexts.Worked as worked;
ghost use Rattle.trace_text.specs.declared.run_texts.run_end.RunEnd.TheVariants.{Ended, Exited};

/// A program that calls the first of two functions of one name, and two harts that race for a slot:
/// each journal's lines, and the last line.
pub fn journals_are_printed()
    ensures first_match { journal_lines first_match ++ end_line (Exited 1) ≡ worked.first_match_text }
    ensures race { journal_lines race ++ end_line (Exited 7) ≡ worked.race_text }
    ensures race_ends { IsRunEnd (ends.Exit 7 ∷ ends.Exit 7 ∷ []) (Exited 7) }
    ensures race_counts { counts_of race ≡ worked.race_counts }
{}

/// A guest's bytes are printed in the order of the journal, with a line feed behind them that they
/// don't have themselves; where it wrote nothing there is none.
pub fn guests_are_printed()
    ensures realistic { guest_output worked.written ++ end_line (Exited 40) ≡ worked.written_text }
    ensures whole_line { guest_output worked.written_line ≡ worked.hi_line }
    ensures nothing { guest_output race ≡ [] }
{}

/// A hart that ends otherwise than by exit decides, the lowest-numbered of several, and gives its own
/// status. A code is a status modulo 256.
pub fn deciding_harts_are_named()
    ensures fuel { end_line (Ended 0 ends.FuelOut) ≡ worked.fuel_line }
    ensures slot_store { end_line (Ended 0 (ends.SlotStore 0x11038 0x13010)) ≡ worked.slot_store_line }
    ensures lowest { IsRunEnd (ends.Exit 3 ∷ ends.Memory ∷ ends.FuelOut ∷ []) (Ended 1 ends.Memory) }
    ensures not_highest { IsRunEnd (ends.Exit 3 ∷ ends.Memory ∷ ends.FuelOut ∷ []) (Ended 2 ends.FuelOut) → ⊥ }
    ensures code { run_status (Exited 300) ≡ 44 }
{}

/// Hart 0 exits, and ends once more in the final destructors: the later end counts.
pub fn later_ends_count()
    ensures last { AreLastEnds 2 worked.ended_twice (ends.Break 0x80f080 ∷ ends.Exit 5 ∷ []) }
    ensures not_first { AreLastEnds 2 worked.ended_twice (ends.Exit 0 ∷ ends.Exit 5 ∷ []) → ⊥ }
    ensures decides { IsRunEnd (ends.Break 0x80f080 ∷ ends.Exit 5 ∷ []) (Ended 0 (ends.Break 0x80f080)) }
{}
