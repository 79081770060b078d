//! What an opening is to bring.

ghost use Rattle.std.specs.Prelude.{◌≡◌, ◌≤◌, ℕ, List, false, true, length, Some, IfErr, IfOk};
ghost use Rattle.std.specs.List.{AllByRecursion};
ghost use Rattle.ld_base.specs.declared.linking.File.{File};
ghost use Rattle.ld_base.specs.declared.linking.Loaded.{Loaded};
ghost use Rattle.library_source.specs.Count.{Rises};
ghost use Rattle.history_event.specs.declared.event.Range.{Range};
ghost use Rattle.history_state.specs.Opening.{Opens};
ghost use Rattle.history_calls.specs.CallLaws.Coming.{IsOver, NeedsNoRead};
ghost use Rattle.history_calls.specs.CallLaws.Counts.{ArePaths, ShowsInCounts};
ghost use Rattle.history_journal.specs.Following.{machine_of};
ghost use Rattle.history_state.specs.After.{after};
ghost use Rattle.history_state.specs.Asking.{IsAsked};
ghost use Rattle.history_state.specs.Flags.{is_noload};
ghost use Rattle.history_state.specs.Objects.{is_startup};
ghost use Rattle.history_state.specs.Setting.{Setting};
ghost use Rattle.history_state.specs.Step.{namespace_before};
ghost use Rattle.link_calls.specs.LinkOpening.Planned.{HasPlan, IsOpenPlan, IsPlanIn, IsUnplanned};
ghost use Rattle.link_open_plan.specs.OpeningLoad.Finding.{WasLibrary};
ghost use Rattle.link_open_plan.specs.Planned.{objects_of, refusal_in};

use crate::link_opening::judging::judge;
use elf_object::one_object;
use history_calls::{only_failed_reads_stop, refused_by_asking};
use history_event::OpenAsk;
use history_journal::one_image;
use history_state::{objects_are_read, program_stays};
use ld_base::{HartId, Name, Names, NsId, Serial};
use library_source::Library;
use link_open_plan::{Before, Planned, Unopened, plan_named};
use link_spaces::empty_namespace;
use link_state::LinkState;
use scope_rule::Namespace;
use std::alloc::Global;

/// The serial of the program.
const PROGRAM: u64 = 1;

/// What an opening is to bring, and in which namespace.
#[derive(Drop)]
pub struct OpenPlan {
    pub ns: NsId,
    pub planned: Planned,
}

/// Plans an opening, once startup is over: judges what is asked, finds what the name leads to, gives new
/// objects their places, and looks up what their relocations name (dlopen(3), dlmopen(3)). The null name is
/// the program's. Nothing has changed but the library's counts.
///
/// # Errors
///
/// The first refusal, in the order in which the history has them; that the opening has to wait for another
/// hart; or want of memory. The library's counts show that a read failed, and that paths were missed.
pub fn plan<L: Library>(
    alloc: Global,
    state: &LinkState,
    hart: HartId,
    ask: &OpenAsk,
    folders: &Names,
    library: &mut L,
) -> Result<OpenPlan, Unopened>
    requires started { is_startup (after state.now.events) ≡ false }
    requires known { (name : List ℕ) → ask.now.name ≡ Some name → length name ≤ 256 }
    ensures planned { (w : Setting) → IsOver (machine_of state.now.harts) folders.now (L.files library.old) w
        → IfOk result (IsOpenPlan w (after state.now.events) hart ask.now) }
    ensures unplanned { (w : Setting) → IsOver (machine_of state.now.harts) folders.now (L.files library.old) w
        → IfErr result (IsUnplanned w (after state.now.events) hart ask.now) }
    ensures read { IfOk result (λ p. AllByRecursion WasLibrary (objects_of p.planned)) }
    ensures whole { (w : Setting) (files : List File) (id root : ℕ) (added : List Loaded) (ranges : List Range) → L.files library.old ≡ Some files
        → IsOver (machine_of state.now.harts) folders.now (Some files) w → Opens w (after state.now.events) hart ask.now id root added ranges
        → ¬ (Rises (L.faults library.old) (L.faults library.new)) → HasPlan result }
    ensures counts { ShowsInCounts (ArePaths folders.now) (refusal_in result)
        (L.faults library.old) (L.faults library.new) (L.misses library.old) (L.misses library.new) }
    ensures unread { NeedsNoRead (after state.now.events) ask.now → library.new ≡ library.old }
    ensures files { L.files library.new ≡ L.files library.old }
    ensures faults { L.faults library.old ≤ L.faults library.new }
    ensures misses { L.misses library.old ≤ L.misses library.new }
{
    refused_by_asking();
    only_failed_reads_stop();
    program_stays();
    let _ = state.journal();
    let ns = judge(state, ask)?;
    match &ask.name {
        Some(name) => {
            let planned = plan_in(alloc, state, ns, hart, ask, name, folders, library)?;
            Ok(OpenPlan { ns, planned })
        }
        None => Ok(OpenPlan {
            ns,
            planned: Planned::There(Serial::new(PROGRAM)),
        }),
    }
}

/// The same of a name, in a namespace that is there or is new.
fn plan_in<L: Library>(
    alloc: Global,
    state: &LinkState,
    ns: NsId,
    hart: HartId,
    ask: &OpenAsk,
    name: &Name,
    folders: &Names,
    library: &mut L,
) -> Result<Planned, Unopened>
    requires started { is_startup (after state.now.events) ≡ false }
    requires asked { IsAsked (after state.now.events) ask.now ns }
    requires named { ask.now.name ≡ Some name.now }
    ensures planned { (w : Setting) → IsOver (machine_of state.now.harts) folders.now (L.files library.old) w
        → IfOk result (IsPlanIn w (after state.now.events) hart ask.now ns) }
    ensures unplanned { (w : Setting) → IsOver (machine_of state.now.harts) folders.now (L.files library.old) w
        → IfErr result (IsUnplanned w (after state.now.events) hart ask.now) }
    ensures read { IfOk result (λ p. AllByRecursion WasLibrary (objects_of p)) }
    ensures counts { ShowsInCounts (ArePaths folders.now) (refusal_in result)
        (L.faults library.old) (L.faults library.new) (L.misses library.old) (L.misses library.new) }
    ensures unread { is_noload ask.now.flags ≡ true → library.new ≡ library.old }
    ensures files { L.files library.new ≡ L.files library.old }
    ensures faults { L.faults library.old ≤ L.faults library.new }
    ensures misses { L.misses library.old ≤ L.misses library.new }
{
    match state.namespace(ns) {
        Some(namespace) => plan_among(
            alloc, state, namespace, ns, hart, ask, name, folders, library,
        ),
        None => {
            let namespace = empty_namespace(alloc, ns);
            plan_among(
                alloc, state, &namespace, ns, hart, ask, name, folders, library,
            )
        }
    }
}

/// The same in the namespace as it is before the opening.
fn plan_among<L: Library>(
    alloc: Global,
    state: &LinkState,
    namespace: &Namespace,
    ns: NsId,
    hart: HartId,
    ask: &OpenAsk,
    name: &Name,
    folders: &Names,
    library: &mut L,
) -> Result<Planned, Unopened>
    requires started { is_startup (after state.now.events) ≡ false }
    requires asked { IsAsked (after state.now.events) ask.now ns }
    requires named { ask.now.name ≡ Some name.now }
    requires before { namespace.now ≡ namespace_before (after state.now.events) ns }
    ensures planned { (w : Setting) → IsOver (machine_of state.now.harts) folders.now (L.files library.old) w
        → IfOk result (IsPlanIn w (after state.now.events) hart ask.now ns) }
    ensures unplanned { (w : Setting) → IsOver (machine_of state.now.harts) folders.now (L.files library.old) w
        → IfErr result (IsUnplanned w (after state.now.events) hart ask.now) }
    ensures read { IfOk result (λ p. AllByRecursion WasLibrary (objects_of p)) }
    ensures counts { ShowsInCounts (ArePaths folders.now) (refusal_in result)
        (L.faults library.old) (L.faults library.new) (L.misses library.old) (L.misses library.new) }
    ensures unread { is_noload ask.now.flags ≡ true → library.new ≡ library.old }
    ensures files { L.files library.new ≡ L.files library.old }
    ensures faults { L.faults library.old ≤ L.faults library.new }
    ensures misses { L.misses library.old ≤ L.misses library.new }
{
    objects_are_read();
    one_object();
    one_image();
    let _ = state.journal();
    let before = Before {
        namespace,
        next: state.next_serial(),
        regions: state.regions(),
        modules: state.modules(),
        binds_now: state.binds_now(),
    };
    plan_named(alloc, &before, hart, ask, name, folders, library)
}
