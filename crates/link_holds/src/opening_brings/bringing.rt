//! What an opening brings.

ghost use Rattle.std.specs.Prelude.{◌≡◌, IfOk};
ghost use Rattle.history_journal.specs.Following.{MayFollow};
ghost use Rattle.history_state.specs.After.{after};
ghost use Rattle.history_state.specs.Objects.{is_startup};
ghost use Rattle.history_state.specs.Step.{binds};
ghost use Rattle.history_calls.specs.Served.{slots_of};
ghost use Rattle.link_holds.specs.OpeningBrings.Brought.{AreChosenFor, AreModules, IsBrought, done};

use crate::opening_brings::images::images_in;
use crate::opening_brings::startup_areas::{areas_are_installed, areas_of, static_blocks_fit};
use history_calls::Installs;
use history_event::{Choices, OpenAsk, Range};
use history_graph::Edge;
use history_journal::LawfulJournal;
use ld_base::{HartId, Loaded, NsId, Serial};
use link_images::Part;
use link_open_images::{edges_of, modules_with, parts_of, slots_of};
use link_open_laws::{
    new_images_are_prepared, new_modules_have_places, new_objects_are_placed, openings_relocate,
    relocated_are_installs, relocated_are_of_records,
};
use link_spaces::module_places;
use scope_rule::Namespace;
use std::alloc::{AllocError, Global};
use tls_blocks::TlsModules;

/// An opening that is to be made.
#[derive(Clone, Copy)]
pub struct Planned<'a> {
    /// The hart whose call it is.
    pub hart: HartId,
    /// What is asked.
    pub ask: &'a OpenAsk,
    /// The namespace that it opens in.
    pub ns: NsId,
    /// The object that it opens.
    pub root: Serial,
    /// The new objects, in load order.
    pub added: &'a [Loaded],
    /// The pages that are reserved with them.
    pub ranges: &'a [Range],
}

/// What it brings to a linker's lists.
#[derive(Drop)]
pub struct Brings {
    /// The modules with those of the new objects.
    pub modules: TlsModules,
    /// From the new objects to what their relocations choose.
    pub edges: Vec<Edge>,
    /// What is kept of the new objects' images.
    pub parts: Vec<Part>,
    /// What memory gets.
    pub installs: Installs,
}

/// What an opening that may come next brings: `startup` says whether nothing was opened yet, `now` whether
/// it binds slots at load; there is a list of choices for each new object.
///
/// # Errors
///
/// Want of memory.
pub fn prepare(
    alloc: Global,
    journal: &LawfulJournal,
    namespaces: &[Namespace],
    modules: &TlsModules,
    startup: bool,
    now: bool,
    planned: &Planned,
    choices: &[Choices],
) -> Result<Brings, AllocError>
    requires may { MayFollow journal.now.harts journal.now.events (done planned.now) }
    requires namespaces { namespaces.now ≡ (after journal.now.events).namespaces }
    requires modules { AreModules (after journal.now.events) modules.now }
    requires startup { startup ≡ is_startup (after journal.now.events) }
    requires now { now ≡ binds (after journal.now.events) planned.now.ask.now }
    requires choices { AreChosenFor (after journal.now.events) planned.now now choices.now }
    ensures { IfOk result (IsBrought (after journal.now.events) planned.now) }
{
    new_modules_have_places();
    new_images_are_prepared();
    new_objects_are_placed();
    openings_relocate();
    relocated_are_installs();
    relocated_are_of_records();
    static_blocks_fit();
    areas_are_installed();
    let _ = journal.journal();
    let modules = modules_with(alloc, modules, startup, planned.added)?;
    let places = module_places(alloc, modules.as_slice())?;
    let images = images_in(alloc, namespaces, planned, now, choices, &places)?;
    let edges = edges_of(alloc, planned.added, choices)?;
    let parts = parts_of(alloc, planned.added, images.as_slice())?;
    let slots = slots_of(alloc, planned.added)?;
    let areas = areas_of(
        alloc,
        startup,
        modules.tp(),
        modules.static_size(),
        planned.ranges,
        planned.added,
        parts.as_slice(),
    )?;
    let installs = Installs {
        images,
        slots,
        areas,
    };
    Ok(Brings {
        modules,
        edges,
        parts,
        installs,
    })
}
