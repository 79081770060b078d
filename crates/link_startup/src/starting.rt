//! Startup.

ghost use Rattle.std.specs.Prelude.{◌≡◌, ◌≢◌, ◌<◌, ◌≤◌, ◌^◌, [], false, IfErr, IfOk, OnErr, OnOk};
ghost use Rattle.history_calls.specs.CallLaws.Counts.{ArePathsAtStart, ShowsInCounts};
ghost use Rattle.history_journal.specs.Following.{MayFollow};
ghost use Rattle.ld_base.specs.declared.fault.Shown.{Shown};
ghost use Rattle.history_event.specs.declared.event.Event.TheVariants.{Open};
ghost use Rattle.history_event.specs.declared.event.OpenAnswer.TheVariants.{Refused};
ghost use Rattle.history_state.specs.After.{after};
ghost use Rattle.history_state.specs.Objects.{is_startup};
ghost use Rattle.history_calls.specs.Served.{InstallsNothing};
ghost use Rattle.history_calls.specs.Startup.{Starts, harts_of, program_ask};
ghost use Rattle.link_startup.specs.Startup.{FailsAs, IsNotStarted, IsUnstarted, StartsWhereItCan, start_refusal, startup_refusal};
ghost use Rattle.link_state.specs.Table.{appended};
ghost use Rattle.link_open_plan.specs.Planned.{IsUnopened, PlansNew, refusal_in};
ghost use Rattle.link_open_plan.specs.Startup.{run_of};
ghost use Rattle.link_open_plan.specs.declared.planning.Unopened.TheVariants.{Wait};

use crate::opening::open_program;
use crate::start_parts::Unstarted;
use history_calls::{Setup, StartFault, Started, only_failed_reads_stop};
use history_event::{Ask, OpenAsk};
use ld_base::{DlFault, HartId, NsId};
use library_source::Library;
use link_lists::Copied;
use link_open_plan::{Before, NewObjects, Unopened, plan_program};
use link_state::LinkState;
use std::alloc::{AllocError, Global};

/// Slots are bound at their first call (RTLD_LAZY), and what is opened is global (RTLD_GLOBAL).
const LAZY_AND_GLOBAL: u64 = 0x101;
/// Slots are bound at load (RTLD_NOW), and what is opened is global.
const NOW_AND_GLOBAL: u64 = 0x102;
/// The number of the hart that opens the program.
const FIRST_HART: u32 = 0;

/// Starts a run: opens its program with all that it needs, and looks the names of the harts after the first
/// up, in a new state. It gives what memory gets, the constructors that the first hart is to run before any
/// other turn, the program's DT_PREINIT_ARRAY before them, and the registers with which each hart starts.
///
/// Nothing but a failed read or want of memory stops a run that can start: where the library tells its files,
/// its counts show no failed read, and over these files the program opens and each name is found in executable
/// words, the run starts, or memory is wanted.
///
/// # Errors
///
/// The first refusal, with the events up to it, or want of memory. The library's counts show that a read
/// failed, and that paths were missed.
pub fn startup<L: Library>(
    alloc: Global,
    setup: &Setup,
    library: &mut L,
) -> Result<(LinkState, Started), StartFault>
    requires few { harts_of setup.now < 2 ^ 32 }
    ensures starts { IfOk result (λ run. Starts (run_of setup.now (L.files library.old)) setup.now run.0.events run.1) }
    ensures refused { IfErr result (IsNotStarted (run_of setup.now (L.files library.old)) setup.now) }
    ensures whole { StartsWhereItCan setup.now (L.files library.old) (L.faults library.old) (L.faults library.new) result }
    ensures counts { ShowsInCounts (ArePathsAtStart setup.now.folders setup.now.program) (startup_refusal result)
        (L.faults library.old) (L.faults library.new) (L.misses library.old) (L.misses library.new) }
    ensures files { L.files library.new ≡ L.files library.old }
    ensures faults { L.faults library.old ≤ L.faults library.new }
    ensures misses { L.misses library.old ≤ L.misses library.new }
    ensures harts { IfOk result (λ run. run.0.harts ≡ harts_of setup.now) }
    ensures made { IfOk result (λ run. InstallsNothing run.0.made) }
    ensures started { IfOk result (λ run. is_startup (after run.0.events) ≡ false) }
{
    only_failed_reads_stop();
    let harts = setup.harts.len() as u32 + 1;
    let Ok(mut state) = LinkState::new(alloc, harts) else {
        return Err(StartFault::Memory);
    };
    match start(alloc, &mut state, setup, library) {
        Ok(started) => Ok((state, started)),
        Err(why) => Err(failed(state, why)),
    }
}

/// Why a run doesn't start, with the events up to it.
fn failed(state: LinkState, why: Unstarted) -> StartFault
    ensures { FailsAs state.events why result }
{
    match why {
        Unstarted::Refused(fault) => StartFault::Refused(fault, state.into_journal()),
        Unstarted::Memory => StartFault::Memory,
    }
}

/// Starts a run in the state before the first event.
///
/// # Errors
///
/// The first refusal, which is noted with the events up to it, or want of memory.
fn start<L: Library>(
    alloc: Global,
    state: &mut LinkState,
    setup: &Setup,
    library: &mut L,
) -> Result<Started, Unstarted>
    requires first { state.old.events ≡ [] }
    requires harts { state.old.harts ≡ harts_of setup.now }
    requires made { InstallsNothing state.old.made }
    ensures starts { IfOk result (Starts (run_of setup.now (L.files library.old)) setup.now state.new.events) }
    ensures fails { IfErr result (IsUnstarted (run_of setup.now (L.files library.old)) setup.now state.new.events) }
    ensures counts { ShowsInCounts (ArePathsAtStart setup.now.folders setup.now.program) (start_refusal result)
        (L.faults library.old) (L.faults library.new) (L.misses library.old) (L.misses library.new) }
    ensures files { L.files library.new ≡ L.files library.old }
    ensures faults { L.faults library.old ≤ L.faults library.new }
    ensures misses { L.misses library.old ≤ L.misses library.new }
    ensures harts { state.new.harts ≡ state.old.harts }
    ensures made { OnOk result (InstallsNothing state.new.made) }
    ensures started { OnOk result (is_startup (after state.new.events) ≡ false) }
{
    let ask = program_ask(alloc, setup)?;
    match plan_startup(alloc, state, &ask, setup, library) {
        Ok(news) => open_program(alloc, state, ask, setup, news),
        Err(Unopened::Refused(fault)) => {
            let noted = refuse_program(alloc, state, ask, fault)?;
            Err(Unstarted::Refused(noted))
        }
        Err(Unopened::Wait(_)) => unreachable!(),
        Err(Unopened::Memory) => Err(Unstarted::Memory),
    }
}

/// What the opening of the program asks for.
///
/// # Errors
///
/// Want of memory.
fn program_ask(alloc: Global, setup: &Setup) -> Result<OpenAsk, AllocError>
    ensures { IfOk result (λ ask. ask ≡ program_ask setup.now) }
{
    let flags = if setup.bind_now {
        NOW_AND_GLOBAL
    } else {
        LAZY_AND_GLOBAL
    };
    Ok(OpenAsk {
        ns: Some(u64::from(NsId::BASE.number())),
        name: Some(setup.program.copy(alloc)?),
        flags,
    })
}

/// What the opening of the program is to bring.
///
/// # Errors
///
/// The first refusal, or want of memory.
fn plan_startup<L: Library>(
    alloc: Global,
    state: &LinkState,
    ask: &OpenAsk,
    setup: &Setup,
    library: &mut L,
) -> Result<NewObjects, Unopened>
    requires first { state.now.events ≡ [] }
    requires harts { state.now.harts ≡ harts_of setup.now }
    requires ask { ask.now ≡ program_ask setup.now }
    ensures planned { IfOk result (PlansNew (run_of setup.now (L.files library.old)) (after []) 0 ask.now setup.now.program 0) }
    ensures unopened { IfErr result (IsUnopened (run_of setup.now (L.files library.old)) (after []) 0 ask.now) }
    ensures alone { IfErr result (λ why. (shown : Shown) → why ≢ Wait shown) }
    ensures counts { ShowsInCounts (ArePathsAtStart setup.now.folders setup.now.program) (refusal_in result)
        (L.faults library.old) (L.faults library.new) (L.misses library.old) (L.misses library.new) }
    ensures files { L.files library.new ≡ L.files library.old }
    ensures faults { L.faults library.old ≤ L.faults library.new }
    ensures misses { L.misses library.old ≤ L.misses library.new }
{
    let Some(namespace) = state.namespace(NsId::BASE) else {
        unreachable!()
    };
    let before = Before {
        namespace,
        next: state.next_serial(),
        regions: state.regions(),
        modules: state.modules(),
        binds_now: state.binds_now(),
    };
    plan_program(alloc, &before, state.harts(), ask, setup, library)
}

/// The program is refused, which is noted.
///
/// # Errors
///
/// Want of memory. Nothing has changed then.
fn refuse_program(
    alloc: Global,
    state: &mut LinkState,
    ask: OpenAsk,
    fault: DlFault,
) -> Result<DlFault, AllocError>
    requires { MayFollow state.old.harts state.old.events (Open 0 ask (Refused fault)) }
    ensures same { IfOk result (λ noted. noted ≡ fault) }
    ensures noted { OnOk result (state.new ≡ appended state.old (Open 0 ask (Refused fault))) }
    ensures err { OnErr result (state.new ≡ state.old) }
{
    let copy = fault.copy(alloc)?;
    state.apply_refusal(HartId::new(FIRST_HART), Ask::Open(ask), fault)?;
    Ok(copy)
}
