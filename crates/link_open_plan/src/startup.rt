//! Planning startup.

ghost use Rattle.std.specs.Prelude.{◌≡◌, ◌≢◌, ◌≤◌, [], IfErr, IfOk};
ghost use Rattle.ld_base.specs.declared.fault.Shown.{Shown};
ghost use Rattle.history_calls.specs.CallLaws.Counts.{ArePathsAtStart, ShowsInCounts};
ghost use Rattle.history_state.specs.After.{after};
ghost use Rattle.history_calls.specs.Startup.{harts_of, program_ask};
ghost use Rattle.link_open_plan.specs.Planned.{IsUnopened, PlansNew, refusal_in};
ghost use Rattle.link_open_plan.specs.Startup.{IsFirst, program_load, run_of};
ghost use Rattle.link_open_plan.specs.declared.planning.Unopened.TheVariants.{Wait};

use crate::before::Before;
use crate::planning::{NewObjects, Unopened, place_new};
use history_calls::Setup;
use history_event::OpenAsk;
use ld_base::{HartId, Serial};
use library_source::Library;
use link_lists::Copied;
use load_order::{LoadAsk, plan_load};
use scope_rule::never_waits;
use std::alloc::{AllocError, Global};

/// Plans the opening of a run's program, for so many harts: finds it with all that it needs, gives the objects
/// their places, with static blocks, and each hart a stack and a static area, and looks up what their
/// relocations name (gABI, "Program Loading").
///
/// # Errors
///
/// The first refusal, in the order in which the history has them, or want of memory. Nobody is there to wait
/// for. The library's counts show that a read failed, and that paths were missed.
pub fn plan_program<L: Library>(
    alloc: Global,
    before: &Before,
    harts: u32,
    ask: &OpenAsk,
    setup: &Setup,
    library: &mut L,
) -> Result<NewObjects, Unopened>
    requires first { IsFirst before.now }
    requires harts { harts ≡ harts_of setup.now }
    requires ask { ask.now ≡ program_ask setup.now }
    ensures planned { IfOk result (PlansNew (run_of setup.now (L.files library.old)) (after []) 0 ask.now setup.now.program 0) }
    ensures unopened { IfErr result (IsUnopened (run_of setup.now (L.files library.old)) (after []) 0 ask.now) }
    ensures alone { IfErr result (λ why. (shown : Shown) → why ≢ Wait shown) }
    ensures counts { ShowsInCounts (ArePathsAtStart setup.now.folders setup.now.program) (refusal_in result)
        (L.faults library.old) (L.faults library.new) (L.misses library.old) (L.misses library.new) }
    ensures files { L.files library.new ≡ L.files library.old }
    ensures faults { L.faults library.old ≤ L.faults library.new }
    ensures misses { L.misses library.old ≤ L.misses library.new }
{
    never_waits();
    let load = program_load(alloc, before.next, setup)?;
    let plan = plan_load(alloc, before.namespace, &load, library)?;
    place_new(alloc, before, Some(harts), ask, plan)
}

/// What the load of the program is asked for.
fn program_load(alloc: Global, next: Serial, setup: &Setup) -> Result<LoadAsk, AllocError>
    ensures { IfOk result (λ load. load ≡ program_load next setup.now) }
{
    Ok(LoadAsk {
        name: setup.program.copy(alloc)?,
        folders: setup.folders.copy(alloc)?,
        preload: setup.preload.copy(alloc)?,
        hart: HartId::new(0),
        next,
        program: true,
        deep: false,
    })
}
