//! What an opening is.

ghost use Rattle.std.specs.Prelude.{◌≡◌, ◌≤◌, ℕ, List, IfErr, IfOk};
ghost use Rattle.history_event.specs.declared.event.Event.{Event};
ghost use Rattle.library_source.specs.Count.{Rises};
ghost use Rattle.trace_opens.specs.OpeningRows.Expected.{IsExpectedOpening, MayFailSo, trace_run};
ghost use Rattle.trace_opens.specs.declared.failed_paths.judging.Doubt.TheVariants.{ReadFault};
ghost use Rattle.trace_replay.specs.Shown.{Shows};

use crate::failed_paths::Doubt;
use crate::opening_rows::finding::expected_later;
use crate::opening_rows::starting::expected_first;
use history_event::{OpenAsk, OpenLine, Opening};
use ld_base::{HartId, Names};
use library_source::Library;
use std::alloc::Global;
use trace_replay::Replay;

/// The one opening that a line may be, behind the history whose lists these are, in a run without preload names
/// that looks for libraries in these folders: none where no event that may come has the line. Whether the opening
/// has the line is left to the caller. The library is handed back.
///
/// # Errors
///
/// That the library failed to read a path, which its count shows, and to which the opening may come; or want of
/// memory.
pub fn expected_open<L: Library>(
    alloc: Global,
    replay: &Replay,
    hart: HartId,
    ask: &OpenAsk,
    line: &OpenLine,
    folders: &Names,
    library: L,
) -> (Result<Option<Opening>, Doubt>, L)
    requires { 1 ≤ replay.now.harts }
    ensures expected { IfOk result.0 (λ found. (past : List Event) → Shows past replay.now
        → IsExpectedOpening (trace_run replay.now.harts folders.now (L.files library)) past hart ask.now line.now found) }
    ensures failed { IfErr result.0 (λ doubt. (failed : List ℕ) → doubt ≡ ReadFault failed → Rises (L.faults library) (L.faults result.1)) }
    ensures path { IfErr result.0 (λ doubt. (past : List Event) → Shows past replay.now
        → MayFailSo (trace_run replay.now.harts folders.now (L.files library)) past hart ask.now doubt) }
    ensures files { L.files result.1 ≡ L.files library }
    ensures faults { L.faults library ≤ L.faults result.1 }
    ensures misses { L.misses library ≤ L.misses result.1 }
{
    if replay.is_startup() {
        expected_first(alloc, replay, hart, ask, line, folders, library)
    } else {
        expected_later(alloc, replay, hart, ask, line, folders, library)
    }
}
