//! The opening of a run's program, carried out.

ghost use Rattle.std.specs.Prelude.{◌≡◌, [], false, IfErr, IfOk, List, OnOk, Option};
ghost use Rattle.ld_base.specs.declared.linking.File.{File};
ghost use Rattle.history_state.specs.After.{after};
ghost use Rattle.history_state.specs.Objects.{is_startup};
ghost use Rattle.history_calls.specs.Served.{InstallsNothing};
ghost use Rattle.history_calls.specs.Startup.{Starts, harts_of, program_ask};
ghost use Rattle.link_startup.specs.Startup.{IsOfNoFile, IsUnstarted, PlansStart};
ghost use Rattle.link_open_plan.specs.Startup.{run_of};

use crate::bringing::bring;
use crate::preinits::{preceded, preinits};
use crate::start_parts::{Unstarted, entries_of, find_harts};
use history_calls::{Setup, Started};
use history_event::OpenAsk;
use history_state::nothing_comes_before_startup;
use ld_base::{HartId, NsId};
use link_open_plan::NewObjects;
use link_state::LinkState;
use std::alloc::Global;

/// The number of the hart that opens the program.
const FIRST_HART: u32 = 0;

/// Opens the program, and looks the names of the harts up.
///
/// # Errors
///
/// The first name at which no hart can start, with the events up to it, or want of memory.
pub(crate) fn open_program(
    alloc: Global,
    state: &mut LinkState,
    ask: OpenAsk,
    setup: &Setup,
    news: NewObjects,
) -> Result<Started, Unstarted>
    requires first { state.old.events ≡ [] }
    requires harts { state.old.harts ≡ harts_of setup.now }
    requires made { InstallsNothing state.old.made }
    requires ask { ask ≡ program_ask setup.now }
    requires planned { (files : Option (List File)) × PlansStart setup.now files news }
    ensures starts { (files : Option (List File)) → PlansStart setup.now files news
        → IfOk result (Starts (run_of setup.now files) setup.now state.new.events) }
    ensures fails { (files : Option (List File)) → PlansStart setup.now files news
        → IfErr result (IsUnstarted (run_of setup.now files) setup.now state.new.events) }
    ensures no_file { IfErr result IsOfNoFile }
    ensures harts { state.new.harts ≡ state.old.harts }
    ensures made { OnOk result (InstallsNothing state.new.made) }
    ensures started { OnOk result (is_startup (after state.new.events) ≡ false) }
{
    nothing_comes_before_startup();
    let _ = state.harts();
    let hart = HartId::new(FIRST_HART);
    let (installs, functions) = bring(alloc, state, hart, ask, NsId::BASE, news)?;
    let _ = state.journal();
    let before = preinits(alloc, state, &installs)?;
    let functions = preceded(before, functions)?;
    let starts = find_harts(alloc, state, setup)?;
    let entries = entries_of(alloc, state, starts.as_slice())?;
    Ok(Started {
        installs,
        functions,
        entries,
    })
}
