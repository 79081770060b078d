//! What new objects choose.

ghost use Rattle.std.specs.Prelude.{◌≡◌, ◌||◌, None, map, IfErr, IfOk};
ghost use Rattle.std.specs.List.{AllByRecursion};
ghost use Rattle.history_state.specs.Bound.{place_of};
ghost use Rattle.history_state.specs.Flags.{is_now};
ghost use Rattle.history_state.specs.Relocating.{relocation_fault};
ghost use Rattle.history_state.specs.State.{State};
ghost use Rattle.history_calls.specs.LoadChoices.Choices.{choices_of};
ghost use Rattle.link_open_plan.specs.ObjectChoices.Choices.{IsFaultOf};
ghost use Rattle.link_open_plan.specs.ObjectChoices.Sight.{Shows};
ghost use Rattle.link_open_plan.specs.Before.{HasObjects, WasRead, seen_with};

use crate::before::Before;
use crate::object_choices::{ChoiceFault, choose};
use elf_object::one_object;
use history_event::{ChoiceLists, Module, OpenAsk};
use history_journal::one_image;
use ld_base::{Loaded, Serial};
use link_lists::{is_global, is_now};
use link_spaces::module_places;
use scope_rule::{View, opened_lists};
use std::alloc::Global;
use sym_lookup::tables_are_there;

/// What the relocations of new objects choose, among these modules.
///
/// # Errors
///
/// The first relocation that is refused, or want of memory.
pub(crate) fn choose_new(
    alloc: Global,
    before: &Before,
    ask: &OpenAsk,
    root: Serial,
    added: &[Loaded],
    modules: &[Module],
) -> Result<ChoiceLists, ChoiceFault>
    requires there { HasObjects before.now }
    requires read { AllByRecursion WasRead added.now }
    ensures choices { IfOk result (λ all.
        all ≡ map (choices_of (seen_with before.now ask.now root added.now) (before.now.binds_now || is_now ask.now.flags)) added.now) }
    ensures relocated { IfOk result (λ all. (s : State) → Shows s (seen_with before.now ask.now root added.now) (map place_of modules.now)
        → relocation_fault s (seen_with before.now ask.now root added.now) (before.now.binds_now || is_now ask.now.flags) added.now ≡ None) }
    ensures refused { IfErr result (λ e. (s : State) → Shows s (seen_with before.now ask.now root added.now) (map place_of modules.now)
        → IsFaultOf (relocation_fault s (seen_with before.now ask.now root added.now) (before.now.binds_now || is_now ask.now.flags) added.now) e) }
{
    one_object();
    one_image();
    tables_are_there();
    let places = module_places(alloc, modules)?;
    let namespace = before.namespace;
    let lists = opened_lists(
        alloc,
        &namespace.view_with(added),
        root,
        is_global(ask.flags),
    )?;
    let view = View {
        objects: namespace.objects.as_slice(),
        added,
        global: lists.global.as_slice(),
        opens: lists.opens.as_slice(),
    };
    choose(alloc, &view, &places, binds_slots(before, ask.flags))
}

/// Whether an opening with these flags binds the slots of its new objects.
fn binds_slots(before: &Before, flags: u64) -> bool
    ensures { result ≡ (before.now.binds_now || is_now flags) }
{
    before.binds_now || is_now(flags)
}
