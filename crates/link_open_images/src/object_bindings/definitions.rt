//! What choices come to, by what is seen of a namespace.

ghost use Rattle.std.specs.Prelude.{◌≡◌, Some};
ghost use Rattle.std.specs.Option.{option_copied};
ghost use Rattle.ld_base.specs.declared.linking.Choice.TheVariants.{Def};
ghost use Rattle.history_state.specs.Addresses.{definition_address, linker_function, symbol_address, symbol_at};
ghost use Rattle.history_state.specs.Bound.{is_storage};
ghost use Rattle.link_open_images.specs.ObjectBindings.Bindings.{address_in, size_in, storage_in, symbol_in, value_in};

use ld_base::{Choice, Loaded, Reloc, Serial, Symbol};
use scope_rule::IndexedView;

/// The linker's own page, at whose start its functions stand.
const LINKER_PAGE: u64 = 0x80f000;

/// From one of the linker's functions to the next.
const FUNCTION_SIZE: u64 = 16;

const R_RISCV_TLS_DTPMOD64: u32 = 7;

const R_RISCV_TLS_DTPREL64: u32 = 9;

const R_RISCV_TLS_TPREL64: u32 = 11;

/// What a relocation takes of its choice: the address, or the symbol's place in its module's block.
pub(crate) fn value_of(indexed: &IndexedView, reloc: &Reloc, choice: &Choice) -> u64
    ensures { result ≡ value_in indexed.now reloc.now choice.now }
{
    if is_storage(reloc) {
        place_in_block(indexed, choice)
    } else {
        address_of(indexed, choice)
    }
}

/// The symbol's place in its module's block. The linker's own functions are in none: it is their address.
fn place_in_block(indexed: &IndexedView, choice: &Choice) -> u64
    ensures { result ≡ storage_in indexed.now choice.now }
{
    match *choice {
        Choice::Def(serial, index) if serial.number() == 0 => linker_function(index),
        Choice::Def(_, _) => symbol_of(indexed, choice).map_or(0, |symbol| symbol.value),
        Choice::WeakZero | Choice::Missing => 0,
    }
}

/// The size of the definition.
pub(crate) fn size_of(indexed: &IndexedView, choice: &Choice) -> u64
    ensures { result ≡ size_in indexed.now choice.now }
{
    symbol_of(indexed, choice).map_or(0, |symbol| symbol.size)
}

/// Whether a relocation is one of thread-local storage.
fn is_storage(reloc: &Reloc) -> bool
    ensures { result ≡ is_storage reloc.now }
{
    reloc.kind == R_RISCV_TLS_DTPMOD64
        || reloc.kind == R_RISCV_TLS_DTPREL64
        || reloc.kind == R_RISCV_TLS_TPREL64
}

/// The symbol that was chosen, where an object has it.
fn symbol_of<'a>(indexed: &IndexedView<'a>, choice: &Choice) -> Option<&'a Symbol>
    ensures { option_copied result ≡ symbol_in indexed.now choice.now }
{
    match *choice {
        Choice::Def(serial, index) => match indexed.object(serial) {
            Some(object) => symbol_at(object, index),
            None => None,
        },
        Choice::WeakZero | Choice::Missing => None,
    }
}

/// The symbol of an object at an index.
fn symbol_at(object: &Loaded, index: u32) -> Option<&Symbol>
    ensures { option_copied result ≡ symbol_at object.now.object index }
{
    object.object.symbols.as_slice().get(index as usize)
}

/// The address of a choice: that of its definition, and 0 where it has none.
fn address_of(indexed: &IndexedView, choice: &Choice) -> u64
    ensures { result ≡ address_in indexed.now choice.now }
{
    match *choice {
        Choice::Def(serial, index) => address_at(indexed, serial, index),
        Choice::WeakZero | Choice::Missing => 0,
    }
}

/// The address of a definition.
fn address_at(indexed: &IndexedView, serial: Serial, index: u32) -> u64
    ensures { result ≡ address_in indexed.now (Def serial index) }
{
    if serial.number() == 0 {
        return linker_function(index);
    }
    match indexed.object(serial) {
        Some(object) => definition_in(object, index),
        None => 0,
    }
}

/// The address of one of the linker's own functions.
fn linker_function(index: u32) -> u64
    ensures { result ≡ linker_function index }
{
    LINKER_PAGE + FUNCTION_SIZE * u64::from(index)
}

/// The address of an object's symbol; 0 where it has no such symbol.
fn definition_in(object: &Loaded, index: u32) -> u64
    ensures { result ≡ definition_address (Some object.now) index }
{
    match symbol_at(object, index) {
        Some(symbol) => symbol_address(object, symbol),
        None => 0,
    }
}

/// The address of a symbol: its value and the base, or the value alone (SHN_ABS).
#[tactic(auto, unfolding(seg_image::specs::Pages::guest_address))]
fn symbol_address(object: &Loaded, symbol: &Symbol) -> u64
    ensures { result ≡ symbol_address object.now symbol.now }
{
    let value = symbol.value;
    if symbol.is_absolute() {
        value
    } else {
        object.base.wrapping_add(value)
    }
}
