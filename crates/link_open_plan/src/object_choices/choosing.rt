//! Choosing for new objects.

ghost use Rattle.std.specs.Prelude.{◌≡◌, ◌<◌, ◌^◌, ◌++◌, length, None, map, Contains, IfOk, IfErr, IsTrue};
ghost use Rattle.ld_base.specs.declared.linking.Loaded.{Loaded as LoadedObject};
ghost use Rattle.history_state.specs.Bound.{place_of};
ghost use Rattle.history_state.specs.Relocating.{first_fault, object_fault, reloc_fault, relocation_fault};
ghost use Rattle.history_state.specs.State.{State};
ghost use Rattle.history_calls.specs.LoadChoices.Choices.{choices_of};
ghost use Rattle.scope_rule.specs.Relocation.{choice_at, names_symbols};
ghost use Rattle.scope_rule.specs.Seen.{seen};
ghost use Rattle.scope_lists.specs.Lists.{IsListedAt};
ghost use Rattle.seg_image.specs.Accepted.{Accepted};
ghost use Rattle.sym_lookup.specs.Looking.{HaveTables};
ghost use Rattle.link_open_plan.specs.ObjectChoices.Choices.{IsFaultOf};
ghost use Rattle.link_open_plan.specs.ObjectChoices.Sight.{AreNamed, AreSlots, CanSee, IsNew, Shows, chosen_at, faults_at};

use crate::object_choices::faults::{reloc_fault, slot_fault};
use crate::object_choices::sight::Sight;
use history_event::{ChoiceLists, Choices};
use ld_base::{Choice, DlFault, Loaded, Reloc};
use relocator::TlsPlaces;
use scope_lists::SearchLists;
use scope_rule::View;
use std::alloc::{AllocError, Global};
use sym_lookup::References;

/// Why there are no choices.
#[derive(Drop)]
pub enum ChoiceFault {
    /// A relocation is refused.
    Refused(DlFault),
    /// Want of memory.
    Memory,
}

impl From<AllocError> for ChoiceFault {
    ghost from_gives = { λ _ fault. fault ≡ Memory };

    ghost use Rattle.link_open_plan.specs.declared.object_choices.choosing.ChoiceFault.TheVariants.{Memory};

    fn from(_error: AllocError) -> Self {
        ChoiceFault::Memory
    }
}

/// What the relocations of the new objects of a namespace choose, a list for each of them: one choice a
/// relocation, those of DT_RELA and then those of the slots. The view is that of the namespace as the opening
/// leaves it, and the places those of all modules, the new ones too. `now` says that slots are bound at load;
/// a slot that stays lazy chooses nothing, and has WeakZero. Without new objects no lists are made, and else
/// the scopes of the new objects alone.
///
/// # Errors
///
/// The first relocation that is refused, or want of memory.
pub fn choose(
    alloc: Global,
    view: &View,
    places: &TlsPlaces,
    now: bool,
) -> Result<ChoiceLists, ChoiceFault>
    requires tables { HaveTables (seen view.now) }
    requires accepted { (o : LoadedObject) → Contains (seen view.now).objects o → Accepted o.object }
    requires named { (o : LoadedObject) → Contains view.now.added.now o → IsTrue (names_symbols o.object) }
    ensures choices { IfOk result (λ all. all ≡ map (choices_of (seen view.now) now) view.now.added.now) }
    ensures relocated { IfOk result (λ all. (s : State) → Shows s (seen view.now) places.now
        → relocation_fault s (seen view.now) now view.now.added.now ≡ None) }
    ensures refused { IfErr result (λ e. (s : State) → Shows s (seen view.now) places.now
        → IsFaultOf (relocation_fault s (seen view.now) now view.now.added.now) e) }
{
    if view.added.is_empty() {
        return Ok(ChoiceLists::new(alloc));
    }
    let lists = SearchLists::build_added(alloc, view)?;
    let sight = Sight {
        view: *view,
        lists: &lists,
        places,
    };
    let mut all = ChoiceLists::new(alloc);
    match choose_all(alloc, &sight, now, &mut all)? {
        Some(fault) => Err(ChoiceFault::Refused(fault)),
        None => Ok(all),
    }
}

/// Puts the choices of each new object at the end, up to the first that is refused, and gives its refusal.
fn choose_all(
    alloc: Global,
    sight: &Sight,
    now: bool,
    all: &mut ChoiceLists,
) -> Result<Option<DlFault>, AllocError>
    requires sight { CanSee sight.now }
    ensures fault { IfOk result (λ fault. (s : State) → Shows s (seen sight.now.view) sight.now.places.now
        → fault ≡ first_fault (object_fault s (seen sight.now.view) now) sight.now.view.added.now) }
    ensures choices { IfOk result (λ fault. fault ≡ None
        → all.new ≡ all.old ++ map (choices_of (seen sight.now.view) now) sight.now.view.added.now) }
{
    let first = sight.view.objects.len();
    for (index, owner) in sight.view.added.iter().enumerate() {
        let mut choices = Choices::new(alloc);
        if let Some(fault) = choose_at(alloc, sight, now, first + index, owner, &mut choices)? {
            return Ok(Some(fault));
        }
        all.push(choices)?;
    }
    Ok(None)
}

/// The same of the object at a place in load order.
fn choose_at(
    alloc: Global,
    sight: &Sight,
    now: bool,
    place: usize,
    owner: &Loaded,
    choices: &mut Choices,
) -> Result<Option<DlFault>, AllocError>
    requires sight { CanSee sight.now }
    requires new { IsNew sight.now place owner.now }
    requires listed { IsListedAt sight.now.lists.now place }
    ensures fault { IfOk result (λ fault. (s : State) → Shows s (seen sight.now.view) sight.now.places.now
        → fault ≡ object_fault s (seen sight.now.view) now owner.now) }
    ensures choices { IfOk result (λ fault. fault ≡ None → choices.new ≡ choices.old ++ choices_of (seen sight.now.view) now owner.now) }
{
    let mut references = References::at(alloc, &sight.view, sight.lists, place, owner)?;
    let relocs = owner.object.relocs.as_slice();
    if let Some(fault) = choose_relocs(
        alloc,
        sight.places,
        &mut references,
        owner,
        relocs,
        choices,
    )? {
        return Ok(Some(fault));
    }
    let slots = owner.object.plt_relocs.as_slice();
    let bound = now || owner.object.flags.bind_now;
    choose_slots(alloc, sight, bound, &mut references, owner, slots, choices)
}

/// Puts the choices of these relocations of DT_RELA at the end, up to the first that is refused, and gives its
/// refusal.
fn choose_relocs(
    alloc: Global,
    places: &TlsPlaces,
    references: &mut References,
    owner: &Loaded,
    relocs: &[Reloc],
    choices: &mut Choices,
) -> Result<Option<DlFault>, AllocError>
    requires named { AreNamed (length owner.now.object.symbols) relocs.now }
    requires owner { references.old.owner ≡ owner.now }
    ensures fault { IfOk result (λ fault. (s : State) → map place_of s.modules ≡ places.now
        → fault ≡ first_fault (reloc_fault s references.old.seen owner.now) relocs.now) }
    ensures choices { IfOk result (λ fault. fault ≡ None
        → choices.new ≡ choices.old ++ map (choice_at references.old.seen owner.now) relocs.now) }
    ensures same { references.new ≡ references.old }
{
    for reloc in relocs {
        let choice = references.choice(reloc);
        if let Some(fault) = reloc_fault(alloc, places, owner, reloc, &choice)? {
            return Ok(Some(fault));
        }
        choices.push(choice)?;
    }
    Ok(None)
}

/// The same of the slots, which choose nothing where they stay lazy.
fn choose_slots(
    alloc: Global,
    sight: &Sight,
    bound: bool,
    references: &mut References,
    owner: &Loaded,
    slots: &[Reloc],
    choices: &mut Choices,
) -> Result<Option<DlFault>, AllocError>
    requires sight { CanSee sight.now }
    requires accepted { Accepted owner.now.object }
    requires there { Contains (seen sight.now.view).objects owner.now }
    requires slots { AreSlots (length owner.now.object.symbols) slots.now }
    requires owner { references.old.owner ≡ owner.now }
    requires seen { references.old.seen ≡ seen sight.now.view }
    ensures fault { IfOk result (λ fault. (s : State) → Shows s (seen sight.now.view) sight.now.places.now
        → fault ≡ first_fault (faults_at s (seen sight.now.view) bound owner.now) slots.now) }
    ensures choices { IfOk result (λ fault. fault ≡ None
        → choices.new ≡ choices.old ++ map (chosen_at (seen sight.now.view) bound owner.now) slots.now) }
{
    for slot in slots {
        let choice = choice_of(references, bound, slot);
        if let Some(fault) = fault_of(alloc, sight, bound, owner, slot, &choice)? {
            return Ok(Some(fault));
        }
        choices.push(choice)?;
    }
    Ok(None)
}

/// What a slot chooses: nothing where it stays lazy.
fn choice_of(references: &mut References, bound: bool, slot: &Reloc) -> Choice
    requires { slot.now.symbol < length references.old.owner.object.symbols }
    ensures choice { result ≡ chosen_at references.old.seen bound references.old.owner slot.now }
    ensures same { references.new ≡ references.old }
{
    if bound {
        references.choice(slot)
    } else {
        Choice::WeakZero
    }
}

/// What a slot is refused for, if it is: one that stays lazy never is.
fn fault_of(
    alloc: Global,
    sight: &Sight,
    bound: bool,
    owner: &Loaded,
    slot: &Reloc,
    choice: &Choice,
) -> Result<Option<DlFault>, AllocError>
    requires sight { CanSee sight.now }
    requires accepted { Accepted owner.now.object }
    requires there { Contains (seen sight.now.view).objects owner.now }
    requires symbol { slot.now.symbol < length owner.now.object.symbols }
    requires low { slot.now.place < 2 ^ 63 }
    requires choice { choice.now ≡ chosen_at (seen sight.now.view) bound owner.now slot.now }
    ensures { IfOk result (λ fault. (s : State) → Shows s (seen sight.now.view) sight.now.places.now
        → fault ≡ faults_at s (seen sight.now.view) bound owner.now slot.now) }
{
    if bound {
        slot_fault(alloc, sight, owner, slot, choice)
    } else {
        Ok(None)
    }
}
