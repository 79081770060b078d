//! What holds of ends and of journals.

ghost use Rattle.std.specs.Prelude.{◌≡◌, ◌≢◌, ℕ, List, [], All};
ghost use Rattle.history_event.specs.declared.event.Event.{Event};
ghost use Rattle.history_event.specs.declared.hart_end.HartEnd.{HartEnd};
ghost use Rattle.history_event.specs.declared.state.Ending.{Ending};
ghost use Rattle.history_state.specs.Allowed.{Allowed};
ghost use Rattle.history_state.specs.Legal.{Lawful, Legal};
ghost use Rattle.history_state.specs.Setting.{Machine, Setting};
ghost use Rattle.trace_text.specs.Lines.{IsSayable};
ghost use Rattle.trace_text.specs.RunTexts.Ends.{AreLastEnds, IsRunEnd};
ghost use Rattle.trace_text.specs.declared.run_texts.run_end.RunEnd.{RunEnd};

/// The harts' ends decide how the run ended: a run of one hart or more has exactly one end.
pub fn one_run_end()
    ensures some { (ends : List HartEnd) → ends ≢ [] → (run_end : RunEnd) × IsRunEnd ends run_end }
    ensures one { (ends : List HartEnd) (first second : RunEnd) → IsRunEnd ends first → IsRunEnd ends second → first ≡ second }
{}

/// The ends of a journal's state decide the last end of each hart.
pub fn ends_are_last()
    ensures { (harts : ℕ) (endings : List Ending) (first second : List HartEnd) → AreLastEnds harts endings first → AreLastEnds harts endings second
        → first ≡ second }
{}

/// Each event of a legal journal has a line: a grant gives something, and a slot that gets nothing has
/// no definition, or one that isn't code.
pub fn events_are_sayable()
    ensures allowed { (w : Setting) (past : List Event) (e : Event) → Allowed w past e → IsSayable e }
    ensures legal { (w : Setting) (journal : List Event) → Legal w journal → All IsSayable journal }
    ensures lawful { (m : Machine) (journal : List Event) → Lawful m journal → All IsSayable journal }
{}
