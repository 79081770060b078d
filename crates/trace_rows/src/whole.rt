//! Whether a history is whole.

ghost use Rattle.std.specs.Prelude.{◌≡◌, ◌↔◌, List, not, Contains, IsTrue};
ghost use Rattle.std.specs.List.{list_any};
ghost use Rattle.history_event.specs.declared.event.Event.{Event};
ghost use Rattle.history_event.specs.declared.state.Granting.{Granting as granting};
ghost use Rattle.history_graph.specs.Initialised.{is_one_of};
ghost use Rattle.history_journal.specs.Following.{machine_of};
ghost use Rattle.history_state.specs.Legal.{Whole};
ghost use Rattle.history_state.specs.Laws.{GrantsAreTidy};
ghost use Rattle.history_state.specs.Setting.{Setting};
ghost use Rattle.history_state.specs.State.{State};
ghost use Rattle.trace_replay.specs.Heads.{serials_in};
ghost use Rattle.trace_replay.specs.Shown.{IsShown, Shows};
ghost use Rattle.trace_rows.specs.Grants.{IsFinished, IsSettled};

use crate::rows::{all, are_finals, slot_value};
use history_event::{Granting, Standing};
use history_state::grants_are_tidy;
use ld_base::Serial;
use trace_replay::Replay;

/// Whether the history whose lists these are is whole: no grant is open, what each lost grant of a mapped object
/// saw is the value of its slot, and where every hart has ended once, by exit, each object that was initialised
/// was finalised.
pub fn is_whole(replay: &Replay) -> bool
    ensures { (w : Setting) (past : List Event) → w.machine ≡ machine_of replay.now.harts → Shows past replay.now → IsTrue result ↔ Whole w past }
{
    grants_are_tidy();
    all(&[
        replay.grants().open().is_empty(),
        are_settled(replay),
        is_finished(replay),
    ])
}

/// Whether what each lost grant of a mapped object saw is the value of its slot.
fn are_settled(replay: &Replay) -> bool
    ensures { (s : State) → IsShown s replay.now → GrantsAreTidy s → IsTrue result ↔ ((g : granting) → Contains s.grants g → IsSettled s g) }
{
    for grant in replay.grants().as_slice() {
        if !is_settled(replay, grant) {
            return false;
        }
    }
    true
}

/// Whether what this one saw is, if it is such a grant.
fn is_settled(replay: &Replay, grant: &Granting) -> bool
    ensures { (s : State) → IsShown s replay.now → GrantsAreTidy s → IsTrue result ↔ IsSettled s grant.now }
{
    match grant.standing {
        Standing::Lost(saw) => {
            !replay.is_mapped(grant.owner)
                || slot_value(replay, grant.owner, grant.slot) == Some(saw)
        }
        Standing::Open | Standing::Bound => true,
    }
}

/// Whether, if every hart has ended once, by exit, each object that was initialised was finalised.
fn is_finished(replay: &Replay) -> bool
    ensures { (w : Setting) (s : State) → w.machine ≡ machine_of replay.now.harts → IsShown s replay.now → IsTrue result ↔ IsFinished w s }
{
    !are_finals(replay) || are_finalised(replay)
}

/// Whether no mapped object was initialised and not finalised.
fn are_finalised(replay: &Replay) -> bool
    ensures { result ≡ not (list_any (is_one_of (serials_in replay.now.namespaces)) replay.now.unfinished) }
{
    !has_mapped(replay, replay.unfinished())
}

/// Whether one of these objects is mapped.
fn has_mapped(replay: &Replay, objects: &[Serial]) -> bool
    ensures { result ≡ list_any (is_one_of (serials_in replay.now.namespaces)) objects.now }
{
    for object in objects {
        if replay.is_mapped(*object) {
            return true;
        }
    }
    false
}
