//! Planning an opening by name.

ghost use Rattle.std.specs.Prelude.{◌≡◌, ◌≤◌, ℕ, List, map, true, IfErr, IfOk};
ghost use Rattle.std.specs.List.{AllByRecursion};
ghost use Rattle.history_calls.specs.CallLaws.Counts.{ArePaths, ShowsInCounts};
ghost use Rattle.history_event.specs.declared.event.Event.{Event};
ghost use Rattle.history_state.specs.After.{after};
ghost use Rattle.history_state.specs.Flags.{is_noload};
ghost use Rattle.history_state.specs.Opening.{unplaced};
ghost use Rattle.history_state.specs.Setting.{Setting};
ghost use Rattle.link_open_plan.specs.OpeningLoad.Finding.{FindsAll, WasLibrary};
ghost use Rattle.link_open_plan.specs.Before.{HasObjects, IsBefore, IsLent, WasRead};
ghost use Rattle.link_open_plan.specs.Planned.{IsPlanned, IsUnopened, PlansNew, ShowsInNoCount, choice_fault, load_fault, objects_of, place_fault, refusal_in};
ghost use Rattle.link_open_plan.specs.declared.planning.Unopened.TheVariants.{Memory, Refused};

use crate::before::Before;
use crate::choosing::choose_new;
use crate::object_choices::ChoiceFault;
use crate::object_places::{PlaceFault, Places, place};
use crate::opening_load::{Found, find};
use history_calls::new_objects_stand_behind;
use history_event::{ChoiceLists, OpenAsk, Ranges};
use history_journal::accepted_object;
use history_state::{objects_are_apart, serials_are_in_order};
use ld_base::{Added, DlFault, HartId, Name, Names, Serial, Shown};
use library_source::Library;
use load_order::{LoadFault, LoadPlan};
use scope_rule::serials_follow;
use std::alloc::{AllocError, Global};

/// What an opening brings: its root, which may have been there, and the new objects in load order, with
/// their modules and bases, their pages, and a list of choices for each, one a relocation; a slot that
/// stays lazy has WeakZero.
#[derive(Drop)]
pub struct NewObjects {
    pub root: Serial,
    pub added: Added,
    pub ranges: Ranges,
    pub choices: ChoiceLists,
}

/// What an opening by name comes to.
#[derive(Drop)]
pub enum Planned {
    /// With RTLD_NOLOAD, no object that is there.
    Absent,
    /// This object, which is there: with RTLD_NOLOAD nothing else is looked for.
    There(Serial),
    /// What a load brings.
    New(NewObjects),
}

/// Why nothing is opened.
#[derive(Drop)]
pub enum Unopened {
    /// It is refused.
    Refused(DlFault),
    /// It has to wait for another hart.
    Wait(Shown),
    /// Want of memory.
    Memory,
}

impl From<AllocError> for Unopened {
    ghost from_gives = { λ _ why. why ≡ Memory };

    fn from(_: AllocError) -> Self {
        Unopened::Memory
    }
}

impl From<DlFault> for Unopened {
    ghost from_gives = { λ fault why. why ≡ Refused fault };

    fn from(fault: DlFault) -> Self {
        Unopened::Refused(fault)
    }
}

impl From<LoadFault> for Unopened {
    ghost from_gives = { λ fault why. why ≡ load_fault fault };

    fn from(fault: LoadFault) -> Self {
        match fault {
            LoadFault::Refused(why) => Unopened::Refused(why),
            LoadFault::Wait(shown) => Unopened::Wait(shown),
            LoadFault::Memory => Unopened::Memory,
        }
    }
}

impl From<PlaceFault> for Unopened {
    ghost from_gives = { λ fault why. why ≡ place_fault fault };

    fn from(fault: PlaceFault) -> Self {
        match fault {
            PlaceFault::Full(pages) => Unopened::Refused(DlFault::AddressSpaceFull(pages)),
            PlaceFault::Memory => Unopened::Memory,
        }
    }
}

impl From<ChoiceFault> for Unopened {
    ghost from_gives = { λ fault why. why ≡ choice_fault fault };

    fn from(fault: ChoiceFault) -> Self {
        match fault {
            ChoiceFault::Refused(why) => Unopened::Refused(why),
            ChoiceFault::Memory => Unopened::Memory,
        }
    }
}

/// Plans an opening by name, once startup is over: finds what the name leads to, gives new objects their
/// places, and looks up what their relocations name (dlopen(3)). With RTLD_NOLOAD nothing is read.
///
/// # Errors
///
/// The first refusal, in the order in which the history has them; that the opening has to wait for another
/// hart; or want of memory. The library's counts show that a read failed, and that paths were missed.
pub fn plan_named<L: Library>(
    alloc: Global,
    before: &Before,
    hart: HartId,
    ask: &OpenAsk,
    name: &Name,
    folders: &Names,
    library: &mut L,
) -> Result<Planned, Unopened>
    requires there { HasObjects before.now }
    ensures planned { (w : Setting) (past : List Event) (id : ℕ) → IsBefore w past ask.now name.now id before.now folders.now (L.files library.old)
        → IfOk result (IsPlanned w (after past) hart ask.now name.now id) }
    ensures unopened { (w : Setting) (past : List Event) (id : ℕ) → IsBefore w past ask.now name.now id before.now folders.now (L.files library.old)
        → IfErr result (IsUnopened w (after past) hart ask.now) }
    ensures read { IfOk result (λ p. AllByRecursion WasLibrary (objects_of p)) }
    ensures counts { ShowsInCounts (ArePaths folders.now) (refusal_in result)
        (L.faults library.old) (L.faults library.new) (L.misses library.old) (L.misses library.new) }
    ensures unread { is_noload ask.now.flags ≡ true → library.new ≡ library.old }
    ensures files { L.files library.new ≡ L.files library.old }
    ensures faults { L.faults library.old ≤ L.faults library.new }
    ensures misses { L.misses library.old ≤ L.misses library.new }
{
    let found = find(
        alloc,
        before.namespace,
        before.next,
        hart,
        ask,
        name,
        folders,
        library,
    )?;
    match found {
        Found::Absent => Ok(Planned::Absent),
        Found::There(root) => Ok(Planned::There(root)),
        Found::New(plan) => Ok(Planned::New(place_new(alloc, before, None, ask, plan)?)),
    }
}

/// Gives what a load brings its places and choices; at startup, for so many harts, with stacks and static areas.
///
/// # Errors
///
/// The pages that have no room, the first relocation that is refused, or want of memory.
pub(crate) fn place_new(
    alloc: Global,
    before: &Before,
    harts: Option<u32>,
    ask: &OpenAsk,
    plan: LoadPlan,
) -> Result<NewObjects, Unopened>
    requires there { HasObjects before.now }
    requires read { AllByRecursion WasRead plan.added }
    ensures same { IfOk result (λ news. map unplaced news.added ≡ map unplaced plan.added) }
    ensures planned { (w : Setting) (past : List Event) (hart id : ℕ) (name : List ℕ) → IsLent w past ask.now name id harts before.now
        → FindsAll w (after past) hart ask.now name id plan.root plan.added → IfOk result (PlansNew w (after past) hart ask.now name id) }
    ensures unopened { (w : Setting) (past : List Event) (hart id : ℕ) (name : List ℕ) → IsLent w past ask.now name id harts before.now
        → FindsAll w (after past) hart ask.now name id plan.root plan.added → IfErr result (IsUnopened w (after past) hart ask.now) }
    ensures no_file { IfErr result ShowsInNoCount }
{
    accepted_object();
    new_objects_stand_behind();
    objects_are_apart();
    serials_are_in_order();
    serials_follow();
    let LoadPlan { root, added, .. } = plan;
    let mut added = added.into_vec();
    let places = place(
        alloc,
        before.regions,
        before.modules,
        harts,
        added.as_mut_slice(),
    )?;
    let Places { modules, ranges } = places;
    let choices = choose_new(
        alloc,
        before,
        ask,
        root,
        added.as_slice(),
        modules.as_slice(),
    )?;
    Ok(NewObjects {
        root,
        added: Added::from(added),
        ranges,
        choices,
    })
}
