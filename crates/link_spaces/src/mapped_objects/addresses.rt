//! What choices come to.

ghost use Rattle.std.specs.Prelude.{◌≡◌};
ghost use Rattle.std.specs.Prelude.{Some};
ghost use Rattle.ld_base.specs.declared.linking.Choice.TheVariants.{Def};
ghost use Rattle.history_state.specs.Addresses.{address, definition_address, is_code_in, is_code_of, leads_to_code, symbol_address};
ghost use Rattle.history_state.specs.State.{State};
ghost use Rattle.link_spaces.specs.ObjectHolders.Holders.{AllAccepted};
ghost use Rattle.seg_image.specs.Accepted.{Accepted};

use crate::mapped_objects::object_in;
use crate::slot_words::is_code;
use ld_base::{Choice, Loaded, Serial, Symbol};
use scope_rule::Namespace;

/// The linker's own page, at whose start its functions stand.
const LINKER_PAGE: u64 = 0x80f000;
/// Where the linker's own page ends.
const LINKER_END: u64 = 0x81_0000;
/// From one of the linker's functions to the next.
const FUNCTION_SIZE: u64 = 16;

/// The address of a choice: that of its definition, and 0 where it has none.
pub fn address_of(namespaces: &[Namespace], choice: Choice) -> u64
    ensures { (s : State) → s.namespaces ≡ namespaces.now → result ≡ address s choice }
{
    match choice {
        Choice::Def(serial, index) => address_at(namespaces, serial, index),
        Choice::WeakZero | Choice::Missing => 0,
    }
}

/// Whether a slot that holds this word until it is bound may be bound to a choice: to 0 by a weak symbol
/// without a definition, or to code of the chosen object.
pub fn leads_to_code(namespaces: &[Namespace], lazy: u64, choice: Choice) -> bool
    requires { AllAccepted namespaces.now }
    ensures { (s : State) → s.namespaces ≡ namespaces.now → result ≡ leads_to_code s lazy choice }
{
    match choice {
        Choice::Def(serial, index) => {
            let address = address_at(namespaces, serial, index);
            is_code_of(namespaces, serial, address) && address != lazy
        }
        Choice::WeakZero => true,
        Choice::Missing => false,
    }
}

/// The address of a definition.
fn address_at(namespaces: &[Namespace], serial: Serial, index: u32) -> u64
    ensures { (s : State) → s.namespaces ≡ namespaces.now → result ≡ address s (Def serial index) }
{
    if serial.number() == 0 {
        return LINKER_PAGE + FUNCTION_SIZE * u64::from(index);
    }
    match object_in(namespaces, serial) {
        Some(object) => definition_in(object, index),
        None => 0,
    }
}

/// The address of an object's symbol; 0 where it has no such symbol.
pub fn definition_in(object: &Loaded, index: u32) -> u64
    ensures { result ≡ definition_address (Some object.now) index }
{
    match object.object.symbols.as_slice().get(index as usize) {
        Some(symbol) => symbol_address(object, symbol),
        None => 0,
    }
}

/// The address of a symbol: its value and the base, or the value alone (SHN_ABS).
#[tactic(auto, unfolding(seg_image::specs::Pages::guest_address))]
fn symbol_address(object: &Loaded, symbol: &Symbol) -> u64
    ensures { result ≡ symbol_address object.now symbol.now }
{
    let value = symbol.value;
    if symbol.is_absolute() {
        value
    } else {
        object.base.wrapping_add(value)
    }
}

/// Whether an address is code of an object, or of the linker.
fn is_code_of(namespaces: &[Namespace], serial: Serial, address: u64) -> bool
    requires { AllAccepted namespaces.now }
    ensures { (s : State) → s.namespaces ≡ namespaces.now → result ≡ is_code_of s serial address }
{
    if serial.number() == 0 {
        return (LINKER_PAGE..LINKER_END).contains(&address);
    }
    match object_in(namespaces, serial) {
        Some(object) => is_code_in(object, address),
        None => false,
    }
}

/// Whether an address is code of an object.
#[tactic(auto, unfolding(seg_image::specs::Pages::own_address))]
pub fn is_code_in(object: &Loaded, address: u64) -> bool
    requires { Accepted object.now.object }
    ensures { result ≡ is_code_in object.now address }
{
    is_code(&object.object, address.wrapping_sub(object.base))
}
