//! What choices come to.

ghost use Rattle.std.specs.Prelude.{◌≡◌, Contains};
ghost use Rattle.ld_base.specs.declared.linking.Choice.TheVariants.{Def};
ghost use Rattle.ld_base.specs.declared.linking.Loaded.{Loaded as LoadedObject};
ghost use Rattle.history_state.specs.Addresses.{address, leads_to_code};
ghost use Rattle.history_state.specs.State.{State};
ghost use Rattle.scope_rule.specs.Seen.{seen};
ghost use Rattle.scope_lists.specs.Lists.{AreListsOf};
ghost use Rattle.seg_image.specs.Accepted.{Accepted};
ghost use Rattle.link_finds.specs.SeenChoices.Seeing.{ShowsObjects, StandsIn};

use ld_base::{Choice, Serial};
use link_spaces::{definition_in, is_code_in};
use scope_lists::SearchLists;
use scope_rule::View;

/// The address of a choice: that of its definition, and 0 where it has none.
pub fn address_of(view: &View, lists: &SearchLists, choice: &Choice) -> u64
    requires lists { AreListsOf (seen view.now) lists.now }
    requires stands { StandsIn (seen view.now) choice.now }
    ensures { (s : State) → ShowsObjects s (seen view.now) → result ≡ address s choice.now }
{
    match *choice {
        Choice::Def(serial, index) => address_at(view, lists, serial, index),
        Choice::WeakZero | Choice::Missing => 0,
    }
}

/// The address of a definition. The linker's own object is of no namespace.
fn address_at(view: &View, lists: &SearchLists, serial: Serial, index: u32) -> u64
    requires lists { AreListsOf (seen view.now) lists.now }
    requires stands { StandsIn (seen view.now) (Def serial index) }
    ensures { (s : State) → ShowsObjects s (seen view.now) → result ≡ address s (Def serial index) }
{
    if serial.number() == 0 {
        return link_spaces::address_of(&[], Choice::Def(serial, index));
    }
    match lists.object(view, serial) {
        Some(object) => definition_in(object, index),
        None => 0,
    }
}

/// Whether a slot that holds this word until it is bound may be bound to a choice.
pub fn leads_to_code(view: &View, lists: &SearchLists, lazy: u64, choice: &Choice) -> bool
    requires lists { AreListsOf (seen view.now) lists.now }
    requires accepted { (o : LoadedObject) → Contains (seen view.now).objects o → Accepted o.object }
    requires stands { StandsIn (seen view.now) choice.now }
    ensures { (s : State) → ShowsObjects s (seen view.now) → result ≡ leads_to_code s lazy choice.now }
{
    match *choice {
        Choice::Def(serial, index) => enters_code(view, lists, lazy, serial, index),
        Choice::WeakZero => true,
        Choice::Missing => false,
    }
}

/// The same of a definition.
fn enters_code(view: &View, lists: &SearchLists, lazy: u64, serial: Serial, index: u32) -> bool
    requires lists { AreListsOf (seen view.now) lists.now }
    requires accepted { (o : LoadedObject) → Contains (seen view.now).objects o → Accepted o.object }
    requires stands { StandsIn (seen view.now) (Def serial index) }
    ensures { (s : State) → ShowsObjects s (seen view.now) → result ≡ leads_to_code s lazy (Def serial index) }
{
    if serial.number() == 0 {
        return link_spaces::leads_to_code(&[], lazy, Choice::Def(serial, index));
    }
    match lists.object(view, serial) {
        Some(object) => {
            let address = definition_in(object, index);
            is_code_in(object, address) && address != lazy
        }
        None => false,
    }
}
