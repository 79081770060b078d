//! What an opening is, once startup is over.

ghost use Rattle.std.specs.Prelude.{◌≡◌, ◌≤◌, ℕ, List, None, false, IfErr, IfOk};
ghost use Rattle.history_event.specs.declared.event.Event.{Event};
ghost use Rattle.history_event.specs.declared.event_line.OpenLine.{OpenLine as ALine};
ghost use Rattle.history_state.specs.After.{after};
ghost use Rattle.history_state.specs.Opening.{IsNamed};
ghost use Rattle.history_state.specs.Setting.{Setting};
ghost use Rattle.history_state.specs.Step.{namespace_before};
ghost use Rattle.library_source.specs.Count.{Rises};
ghost use Rattle.link_open_plan.specs.Before.{HasObjects, IsBefore};
ghost use Rattle.trace_opens.specs.OpeningRows.Expected.{IsExpectedOpening, MayFailSo, failed_path, trace_run};
ghost use Rattle.trace_opens.specs.declared.failed_paths.judging.Doubt.TheVariants.{ReadFault};
ghost use Rattle.trace_replay.specs.Shown.{Shows};

use crate::failed_paths::{Doubt, may_fail_at};
use crate::opening_rows::answers::{
    copied_ask, failed_opening, failed_path, planned, refused_opening, there_opening, unplanned,
};
use crate::opening_rows::asking::{Asked, judge};
use elf_object::one_object;
use history_calls::{one_answer, refused_by_asking};
use history_event::{OpenAsk, OpenLine, Opening};
use history_journal::one_image;
use history_state::{objects_are_read, program_stays};
use ld_base::{HartId, Name, Names, NsId, Serial};
use library_source::Library;
use link_open_plan::{Before, plan_named};
use link_spaces::{empty_namespace, namespace_in};
use scope_rule::Namespace;
use std::alloc::Global;
use trace_replay::Replay;

/// The serial of the program.
const PROGRAM: u64 = 1;

/// The opening that a line may be that asks so, once startup is over.
///
/// # Errors
///
/// That the library failed to read a path, which its count shows, or want of memory.
pub(crate) fn expected_later<L: Library>(
    alloc: Global,
    replay: &Replay,
    hart: HartId,
    ask: &OpenAsk,
    line: &OpenLine,
    folders: &Names,
    library: L,
) -> (Result<Option<Opening>, Doubt>, L)
    requires begun { replay.now.begins ≡ false }
    ensures expected { IfOk result.0 (λ found. (past : List Event) → Shows past replay.now
        → IsExpectedOpening (trace_run replay.now.harts folders.now (L.files library)) past hart ask.now line.now found) }
    ensures failed { IfErr result.0 (λ doubt. (failed : List ℕ) → doubt ≡ ReadFault failed → Rises (L.faults library) (L.faults result.1)) }
    ensures path { IfErr result.0 (λ doubt. (past : List Event) → Shows past replay.now
        → MayFailSo (trace_run replay.now.harts folders.now (L.files library)) past hart ask.now doubt) }
    ensures files { L.files result.1 ≡ L.files library }
    ensures faults { L.faults library ≤ L.faults result.1 }
    ensures misses { L.misses library ≤ L.misses result.1 }
{
    one_answer();
    history_calls::refusals_come_in_order();
    refused_by_asking();
    program_stays();
    match judge(replay.namespaces(), ask) {
        Asked::Overlong => (Ok(None), library),
        Asked::Refused(fault) => (refused_opening(alloc, hart, ask, fault), library),
        Asked::In(ns) => match &ask.name {
            Some(name) => expected_named(
                alloc, replay, ns, hart, ask, name, line, folders, library,
            ),
            None => (
                there_opening(alloc, hart, ask, ns, Serial::new(PROGRAM)),
                library,
            ),
        },
    }
}

/// The same by a name, in a namespace that is there or is new.
fn expected_named<L: Library>(
    alloc: Global,
    replay: &Replay,
    ns: NsId,
    hart: HartId,
    ask: &OpenAsk,
    name: &Name,
    line: &OpenLine,
    folders: &Names,
    library: L,
) -> (Result<Option<Opening>, Doubt>, L)
    requires begun { replay.now.begins ≡ false }
    requires named { (past : List Event) → Shows past replay.now → IsNamed (after past) ask.now name.now ns }
    ensures expected { IfOk result.0 (λ found. (past : List Event) → Shows past replay.now
        → IsExpectedOpening (trace_run replay.now.harts folders.now (L.files library)) past hart ask.now line.now found) }
    ensures failed { IfErr result.0 (λ doubt. (failed : List ℕ) → doubt ≡ ReadFault failed → Rises (L.faults library) (L.faults result.1)) }
    ensures path { IfErr result.0 (λ doubt. (past : List Event) → Shows past replay.now
        → MayFailSo (trace_run replay.now.harts folders.now (L.files library)) past hart ask.now doubt) }
    ensures files { L.files result.1 ≡ L.files library }
    ensures faults { L.faults library ≤ L.faults result.1 }
    ensures misses { L.misses library ≤ L.misses result.1 }
{
    match namespace_in(replay.namespaces(), ns) {
        Some(namespace) => expected_among(
            alloc, replay, namespace, ns, hart, ask, name, line, folders, library,
        ),
        None => {
            let namespace = empty_namespace(alloc, ns);
            expected_among(
                alloc, replay, &namespace, ns, hart, ask, name, line, folders, library,
            )
        }
    }
}

/// The same in the namespace as it is before the opening.
fn expected_among<L: Library>(
    alloc: Global,
    replay: &Replay,
    namespace: &Namespace,
    ns: NsId,
    hart: HartId,
    ask: &OpenAsk,
    name: &Name,
    line: &OpenLine,
    folders: &Names,
    library: L,
) -> (Result<Option<Opening>, Doubt>, L)
    requires begun { replay.now.begins ≡ false }
    requires named { (past : List Event) → Shows past replay.now → IsNamed (after past) ask.now name.now ns }
    requires before { (past : List Event) → Shows past replay.now → namespace.now ≡ namespace_before (after past) ns }
    ensures expected { IfOk result.0 (λ found. (past : List Event) → Shows past replay.now
        → IsExpectedOpening (trace_run replay.now.harts folders.now (L.files library)) past hart ask.now line.now found) }
    ensures failed { IfErr result.0 (λ doubt. (failed : List ℕ) → doubt ≡ ReadFault failed → Rises (L.faults library) (L.faults result.1)) }
    ensures path { IfErr result.0 (λ doubt. (past : List Event) → Shows past replay.now
        → MayFailSo (trace_run replay.now.harts folders.now (L.files library)) past hart ask.now doubt) }
    ensures files { L.files result.1 ≡ L.files library }
    ensures faults { L.faults library ≤ L.faults result.1 }
    ensures misses { L.misses library ≤ L.misses result.1 }
{
    objects_are_read();
    one_object();
    one_image();
    replay.has_history();
    let before = Before {
        namespace,
        next: replay.next_serial(),
        regions: replay.regions(),
        modules: replay.modules(),
        binds_now: replay.binds_now(),
    };
    expected_before(alloc, &before, ns, hart, ask, name, line, folders, library)
}

/// The same of what is lent of the state.
fn expected_before<L: Library>(
    alloc: Global,
    before: &Before,
    ns: NsId,
    hart: HartId,
    ask: &OpenAsk,
    name: &Name,
    line: &OpenLine,
    folders: &Names,
    library: L,
) -> (Result<Option<Opening>, Doubt>, L)
    requires there { HasObjects before.now }
    ensures expected { IfOk result.0 (λ found. (w : Setting) (past : List Event)
        → IsBefore w past ask.now name.now ns before.now folders.now (L.files library) → IsExpectedOpening w past hart ask.now line.now found) }
    ensures failed { IfErr result.0 (λ doubt. (failed : List ℕ) → doubt ≡ ReadFault failed → Rises (L.faults library) (L.faults result.1)) }
    ensures path { IfErr result.0 (λ doubt. (w : Setting) (past : List Event)
        → IsBefore w past ask.now name.now ns before.now folders.now (L.files library) → MayFailSo w past hart ask.now doubt) }
    ensures files { L.files result.1 ≡ L.files library }
    ensures faults { L.faults library ≤ L.faults result.1 }
    ensures misses { L.misses library ≤ L.misses result.1 }
{
    match failed_path(line) {
        Some(path) => {
            let (may, library) = may_fail_at(
                alloc, before, hart, ask, name, folders, library, path,
            );
            (failed_opening(alloc, hart, ask, path, may), library)
        }
        None => {
            let mut library = library;
            let found = planned_opening(alloc, before, ns, hart, ask, name, folders, &mut library);
            (found, library)
        }
    }
}

/// The opening that a plan gives.
fn planned_opening<L: Library>(
    alloc: Global,
    before: &Before,
    ns: NsId,
    hart: HartId,
    ask: &OpenAsk,
    name: &Name,
    folders: &Names,
    library: &mut L,
) -> Result<Option<Opening>, Doubt>
    requires there { HasObjects before.now }
    ensures expected { IfOk result (λ found. (w : Setting) (past : List Event) (line : ALine) → failed_path line ≡ None
        → IsBefore w past ask.now name.now ns before.now folders.now (L.files library.old) → IsExpectedOpening w past hart ask.now line found) }
    ensures failed { IfErr result (λ doubt. (failed : List ℕ) → doubt ≡ ReadFault failed → Rises (L.faults library.old) (L.faults library.new)) }
    ensures path { IfErr result (λ doubt. (w : Setting) (past : List Event)
        → IsBefore w past ask.now name.now ns before.now folders.now (L.files library.old) → MayFailSo w past hart ask.now doubt) }
    ensures files { L.files library.new ≡ L.files library.old }
    ensures faults { L.faults library.old ≤ L.faults library.new }
    ensures misses { L.misses library.old ≤ L.misses library.new }
{
    one_answer();
    let asked = copied_ask(alloc, ask)?;
    match plan_named(alloc, before, hart, ask, name, folders, library) {
        Ok(plan) => Ok(Some(planned(alloc, hart, asked, ns, plan))),
        Err(why) => unplanned(alloc, hart, asked, why),
    }
}
