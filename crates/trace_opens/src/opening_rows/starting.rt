//! What startup's opening is.

ghost use Rattle.std.specs.Prelude.{◌≡◌, ◌≤◌, ◌↔◌, ℕ, [], List, None, Some, IfErr, IfOk, IsTrue};
ghost use Rattle.history_event.specs.declared.event.Event.{Event};
ghost use Rattle.history_event.specs.declared.event_line.OpenLine.{OpenLine as ALine};
ghost use Rattle.history_state.specs.Asking.{IsStartupAsk};
ghost use Rattle.history_calls.specs.Startup.{harts_of, program_ask};
ghost use Rattle.library_source.specs.Count.{Rises};
ghost use Rattle.link_open_plan.specs.Startup.{IsFirst, run_of};
ghost use Rattle.trace_opens.specs.OpeningRows.Expected.{IsExpectedOpening, MayFailSo, failed_path, trace_run};
ghost use Rattle.trace_opens.specs.OpeningRows.Startup.{IsExpectedFirst, IsSetupOf};
ghost use Rattle.trace_opens.specs.declared.failed_paths.judging.Doubt.TheVariants.{Memory, ReadFault};
ghost use Rattle.trace_replay.specs.Shown.{Shows};

use crate::failed_paths::{Doubt, may_fail_at_start};
use crate::opening_rows::answers::{brought, copied_ask, failed_opening, failed_path, unplanned};
use crate::opening_rows::law::startup_needs_no_past;
use history_calls::{Setup, one_answer};
use history_event::{OpenAsk, OpenLine, Opening};
use history_state::nothing_comes_before_startup;
use ld_base::{HartId, Name, Names, NsId};
use library_source::Library;
use link_lists::Copied;
use link_open_plan::{Before, plan_program};
use link_spaces::empty_namespace;
use std::alloc::{AllocError, Global};
use trace_replay::Replay;

/// The flags of startup's opening: RTLD_GLOBAL with RTLD_LAZY, and with RTLD_NOW.
const LAZILY: u64 = 0x101;

const AT_ONCE: u64 = 0x102;

/// The opening that a line may be that asks so, while nothing was loaded.
///
/// # Errors
///
/// That the library failed to read a path, which its count shows, or want of memory.
pub(crate) fn expected_first<L: Library>(
    alloc: Global,
    replay: &Replay,
    hart: HartId,
    ask: &OpenAsk,
    line: &OpenLine,
    folders: &Names,
    library: L,
) -> (Result<Option<Opening>, Doubt>, L)
    requires harts { 1 ≤ replay.now.harts }
    requires begins { IsTrue replay.now.begins }
    ensures expected { IfOk result.0 (λ found. (past : List Event) → Shows past replay.now
        → IsExpectedOpening (trace_run replay.now.harts folders.now (L.files library)) past hart ask.now line.now found) }
    ensures failed { IfErr result.0 (λ doubt. (failed : List ℕ) → doubt ≡ ReadFault failed → Rises (L.faults library) (L.faults result.1)) }
    ensures path { IfErr result.0 (λ doubt. (past : List Event) → Shows past replay.now
        → MayFailSo (trace_run replay.now.harts folders.now (L.files library)) past hart ask.now doubt) }
    ensures files { L.files result.1 ≡ L.files library }
    ensures faults { L.faults library ≤ L.faults result.1 }
    ensures misses { L.misses library ≤ L.misses result.1 }
{
    startup_needs_no_past();
    nothing_comes_before_startup();
    match &ask.name {
        Some(name) if is_startup_ask(hart, ask) => {
            match setup_of(alloc, replay.harts(), name, ask, folders) {
                Ok(setup) => expected_program(alloc, replay, ask, &setup, line, library),
                Err(AllocError) => (Err(Doubt::Memory), library),
            }
        }
        _ => (Ok(None), library),
    }
}

/// Whether startup's opening may ask so.
fn is_startup_ask(hart: HartId, ask: &OpenAsk) -> bool
    ensures { IsTrue result ↔ IsStartupAsk hart ask.now }
{
    hart.number() == 0
        && ask.ns == Some(0)
        && ask.name.is_some()
        && (ask.flags == LAZILY || ask.flags == AT_ONCE)
}

/// What a run is given whose startup asks so.
///
/// # Errors
///
/// Want of memory.
fn setup_of(
    alloc: Global,
    harts: u32,
    name: &Name,
    ask: &OpenAsk,
    folders: &Names,
) -> Result<Setup, AllocError>
    requires harts { 1 ≤ harts }
    requires ask { IsStartupAsk 0 ask.now }
    requires named { ask.now.name ≡ Some name.now }
    ensures { IfOk result (IsSetupOf harts ask.now folders.now) }
{
    let mut names = Names::new(alloc);
    for _ in 1..harts {
        names.push(Name::new(alloc, b"")?)?;
    }
    Ok(Setup {
        program: name.copy(alloc)?,
        folders: folders.copy(alloc)?,
        preload: Names::new(alloc),
        bind_now: ask.flags == AT_ONCE,
        harts: names,
        fuel: 1,
    })
}

/// The opening of a setup's program.
fn expected_program<L: Library>(
    alloc: Global,
    replay: &Replay,
    ask: &OpenAsk,
    setup: &Setup,
    line: &OpenLine,
    library: L,
) -> (Result<Option<Opening>, Doubt>, L)
    requires begins { IsTrue replay.now.begins }
    requires harts { replay.now.harts ≡ harts_of setup.now }
    requires ask { ask.now ≡ program_ask setup.now }
    ensures expected { IfOk result.0 (IsExpectedFirst (run_of setup.now (L.files library)) ask.now line.now) }
    ensures failed { IfErr result.0 (λ doubt. (failed : List ℕ) → doubt ≡ ReadFault failed → Rises (L.faults library) (L.faults result.1)) }
    ensures path { IfErr result.0 (MayFailSo (run_of setup.now (L.files library)) [] 0 ask.now) }
    ensures files { L.files result.1 ≡ L.files library }
    ensures faults { L.faults library ≤ L.faults result.1 }
    ensures misses { L.misses library ≤ L.misses result.1 }
{
    nothing_comes_before_startup();
    replay.has_history();
    let namespace = empty_namespace(alloc, NsId::BASE);
    let before = Before {
        namespace: &namespace,
        next: replay.next_serial(),
        regions: replay.regions(),
        modules: replay.modules(),
        binds_now: false,
    };
    match failed_path(line) {
        Some(path) => {
            let (may, library) = may_fail_at_start(
                alloc,
                &before,
                replay.harts(),
                ask,
                setup,
                library,
                path,
            );
            (
                failed_opening(alloc, HartId::new(0), ask, path, may),
                library,
            )
        }
        None => {
            let mut library = library;
            let found = planned_program(alloc, &before, replay.harts(), ask, setup, &mut library);
            (found, library)
        }
    }
}

/// The opening that the program's plan gives.
fn planned_program<L: Library>(
    alloc: Global,
    before: &Before,
    harts: u32,
    ask: &OpenAsk,
    setup: &Setup,
    library: &mut L,
) -> Result<Option<Opening>, Doubt>
    requires first { IsFirst before.now }
    requires harts { harts ≡ harts_of setup.now }
    requires ask { ask.now ≡ program_ask setup.now }
    ensures expected { IfOk result (λ found. (line : ALine) → failed_path line ≡ None
        → IsExpectedFirst (run_of setup.now (L.files library.old)) ask.now line found) }
    ensures failed { IfErr result (λ doubt. (failed : List ℕ) → doubt ≡ ReadFault failed → Rises (L.faults library.old) (L.faults library.new)) }
    ensures path { IfErr result (MayFailSo (run_of setup.now (L.files library.old)) [] 0 ask.now) }
    ensures files { L.files library.new ≡ L.files library.old }
    ensures faults { L.faults library.old ≤ L.faults library.new }
    ensures misses { L.misses library.old ≤ L.misses library.new }
{
    one_answer();
    let asked = copied_ask(alloc, ask)?;
    match plan_program(alloc, before, harts, ask, setup, library) {
        Ok(news) => Ok(Some(brought(HartId::new(0), asked, NsId::BASE, news))),
        Err(why) => unplanned(alloc, HartId::new(0), asked, why),
    }
}
