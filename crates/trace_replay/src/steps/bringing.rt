//! What an opening brings, made before anything changes.

ghost use Rattle.std.specs.Prelude.{◌≡◌, ℕ, ◌+◌, ◌<◌, ◌≤◌, ◌++◌, filter, length, map, Contains, Some, IfOk};
ghost use Rattle.std.specs.List.{flat_map, slice_get};
ghost use Rattle.std.specs.Option.{option_map};
ghost use Rattle.std.specs.Vec.{vec_capacity, vec_len};
ghost use Rattle.history_graph.specs.Initialised.{InitOrder, program_last};
ghost use Rattle.history_state.specs.Accepted.{IsStorage};
ghost use Rattle.history_state.specs.Addresses.{address};
ghost use Rattle.history_state.specs.Bound.{binds_now};
ghost use Rattle.history_state.specs.Links.{found_edges};
ghost use Rattle.history_state.specs.Objects.{serial_of};
ghost use Rattle.history_state.specs.State.{State};
ghost use Rattle.history_state.specs.Step.{has_module};
ghost use Rattle.history_state.specs.Storage.{HaveModules, with_modules};
ghost use Rattle.ld_base.specs.declared.linking.Loaded.{Loaded as loaded};
ghost use Rattle.ld_base.specs.declared.object.TlsSeg.{TlsSeg as segment};
ghost use Rattle.link_open_images.specs.OpeningSteps.Steps.{statics_after, statics_of};
ghost use Rattle.trace_replay.specs.declared.steps.bringing.NewChoices.{NewChoices as NewOne};
ghost use Rattle.trace_replay.specs.Opened.{AreNew, HasChoices, HasRoom, IsNew, chosen_by, option_of};

use history_event::{BoundChoices, BoundValues, Choices, Chosen};
use ld_base::{Choice, Loaded, Object, Serial};
use link_images::constructor_order;
use link_open_images::modules_with;
use link_spaces::address_of;
use scope_rule::Namespace;
use std::alloc::{AllocError, Global};
use tls_blocks::TlsModules;

/// What an opening brings.
#[derive(Drop)]
pub(crate) struct Brings {
    /// The modules with those of the new objects.
    pub(crate) modules: TlsModules,
    /// What the new objects chose.
    pub(crate) news: Vec<NewChoices>,
    /// Their serials, in load order.
    pub(crate) serials: Vec<Serial>,
    /// And in the order in which they are initialised.
    pub(crate) order: Vec<Serial>,
}

/// What a new object chose, with room for the values of its slots.
#[derive(Drop)]
pub(crate) struct NewChoices {
    pub(crate) owner: Serial,
    pub(crate) choices: Vec<Option<Choice>>,
    /// Those of its slots once more.
    pub(crate) slots: Vec<Option<Choice>>,
    pub(crate) values: Vec<Option<u64>>,
}

/// What an opening of these objects brings, where slots are bound as `now` says. `choices` has a list for each
/// object: those of its relocations, and then those of its slots.
///
/// # Errors
///
/// Want of memory.
pub(crate) fn bring(
    alloc: Global,
    modules: &TlsModules,
    startup: bool,
    now: bool,
    added: &[Loaded],
    choices: &[Choices],
) -> Result<Brings, AllocError>
    requires have { HaveModules startup modules.now.modules (statics_of modules.now) added.now }
    requires storage { (o : loaded) (seg : segment) → Contains added.now o → o.object.tls ≡ Some seg → IsStorage o.object seg }
    requires count { length choices.now ≡ length added.now }
    requires choices { (k : ℕ) (o : loaded) → slice_get added.now k ≡ Some o → HasChoices o (slice_get choices.now k) }
    ensures modules { IfOk result (λ b. b.modules.modules ≡ with_modules added.now modules.now.modules) }
    ensures statics { IfOk result (λ b. statics_of b.modules ≡ statics_after startup added.now (statics_of modules.now)) }
    ensures generation { IfOk result (λ b. b.modules.generation ≡ modules.now.generation + length (filter has_module added.now)) }
    ensures news { IfOk result (λ b. AreNew now added.now choices.now b.news.items) }
    ensures serials { IfOk result (λ b. b.serials.items ≡ map serial_of added.now) }
    ensures order { IfOk result (λ b. InitOrder (flat_map found_edges added.now) (program_last (Some 1) (map serial_of added.now)) b.order.items) }
{
    Ok(Brings {
        modules: modules_with(alloc, modules, startup, added)?,
        news: all_choices(alloc, now, added, choices)?,
        serials: serials_of(alloc, added)?,
        order: constructor_order(alloc, added)?,
    })
}

/// What each of the objects chose.
///
/// # Errors
///
/// Want of memory.
fn all_choices(
    alloc: Global,
    now: bool,
    added: &[Loaded],
    choices: &[Choices],
) -> Result<Vec<NewChoices>, AllocError>
    requires count { length choices.now ≡ length added.now }
    requires choices { (k : ℕ) (o : loaded) → slice_get added.now k ≡ Some o → HasChoices o (slice_get choices.now k) }
    ensures { IfOk result (λ news. AreNew now added.now choices.now news.items) }
{
    let mut news = Vec::new(alloc);
    for (index, object) in added.iter().enumerate() {
        news.push(new_choices(alloc, now, object, choices[index].as_slice())?)?;
    }
    Ok(news)
}

/// What one of them chose.
///
/// # Errors
///
/// Want of memory.
fn new_choices(
    alloc: Global,
    now: bool,
    object: &Loaded,
    choices: &[Choice],
) -> Result<NewChoices, AllocError>
    requires { length object.now.object.relocs ≤ length choices.now }
    ensures { IfOk result (IsNew now object.now choices.now) }
{
    let (relocs, slots) = choices.split_at(object.object.relocs.len());
    let slots = slot_choices(alloc, slots, binds_now(now, &object.object))?;
    Ok(NewChoices {
        owner: object.serial,
        choices: all_of(alloc, relocs, slots.as_slice())?,
        values: Vec::with_capacity(alloc, slots.len())?,
        slots,
    })
}

/// Whether an object's slots are bound when it is loaded.
fn binds_now(now: bool, object: &Object) -> bool
    ensures { result ≡ binds_now now object.now }
{
    now || object.flags.bind_now
}

/// The choices of slots: none where they stay lazy.
///
/// # Errors
///
/// Want of memory.
fn slot_choices(
    alloc: Global,
    slots: &[Choice],
    bound: bool,
) -> Result<Vec<Option<Choice>>, AllocError>
    ensures { IfOk result (λ all. all.items ≡ map (option_of bound) slots.now) }
{
    let mut all = Vec::new(alloc);
    for choice in slots {
        all.push(option_of(choice, bound))?;
    }
    Ok(all)
}

/// The choices of relocations, and then these of slots.
///
/// # Errors
///
/// Want of memory.
fn all_of(
    alloc: Global,
    relocs: &[Choice],
    slots: &[Option<Choice>],
) -> Result<Vec<Option<Choice>>, AllocError>
    ensures { IfOk result (λ all. all.items ≡ map (λ choice. Some choice) relocs.now ++ slots.now) }
{
    let mut all = Vec::new(alloc);
    for choice in relocs {
        all.push(Some(*choice))?;
    }
    all.extend_from_slice(slots)?;
    Ok(all)
}

/// A slot's choice, if it is bound.
fn option_of(choice: &Choice, bound: bool) -> Option<Choice>
    ensures { result ≡ option_of bound choice.now }
{
    if bound { Some(*choice) } else { None }
}

/// Their serials.
fn serials_of(alloc: Global, added: &[Loaded]) -> Result<Vec<Serial>, AllocError>
    ensures { IfOk result (λ serials. serials.items ≡ map serial_of added.now) }
{
    let mut serials = Vec::with_capacity(alloc, added.len())?;
    for object in added {
        serials.push(object.serial)?;
    }
    Ok(serials)
}

/// What new objects chose goes behind the others, with the values of slots in these namespaces.
pub(crate) fn put_all(namespaces: &[Namespace], chosen: &mut Vec<Chosen>, news: Vec<NewChoices>)
    requires room { vec_len chosen.old + vec_len news ≤ vec_capacity chosen.old }
    requires roomy { (k : ℕ) (new : NewOne) → slice_get news.items k ≡ Some new → HasRoom new }
    ensures { (s : State) → s.namespaces ≡ namespaces.now → chosen.new.items ≡ chosen.old.items ++ map (chosen_by s) news.items }
{
    for new in news {
        chosen.push_reserved(valued(namespaces, new));
    }
}

/// What a new object chose, with the values of its slots.
fn valued(namespaces: &[Namespace], new: NewChoices) -> Chosen
    requires { HasRoom new }
    ensures { (s : State) → s.namespaces ≡ namespaces.now → result ≡ chosen_by s new }
{
    let NewChoices {
        owner,
        choices,
        slots,
        mut values,
    } = new;
    push_values(namespaces, &mut values, slots.as_slice());
    Chosen {
        owner,
        choices: BoundChoices::from(choices),
        values: BoundValues::from(values),
    }
}

/// Puts the values of slots at the end, where there is room.
fn push_values(namespaces: &[Namespace], values: &mut Vec<Option<u64>>, choices: &[Option<Choice>])
    requires { vec_len values.old + length choices.now ≤ vec_capacity values.old }
    ensures { (s : State) → s.namespaces ≡ namespaces.now → values.new.items ≡ values.old.items ++ map (option_map (address s)) choices.now }
{
    for choice in choices {
        values.push_reserved(value_of(namespaces, choice));
    }
}

/// The value of a slot, if it is bound.
fn value_of(namespaces: &[Namespace], choice: &Option<Choice>) -> Option<u64>
    ensures { (s : State) → s.namespaces ≡ namespaces.now → result ≡ option_map (address s) choice.now }
{
    match choice {
        Some(choice) => Some(address_of(namespaces, *choice)),
        None => None,
    }
}
