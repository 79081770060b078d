//! Symbols of definitions.

ghost use Rattle.std.specs.Prelude.{◌≡◌, false, IfNone, IfSome, IsTrue};
ghost use Rattle.std.specs.Option.{option_copied};
ghost use Rattle.ld_base.specs.declared.linking.Choice.TheVariants.{Def};
ghost use Rattle.history_state.specs.Addresses.{chosen_symbol};
ghost use Rattle.history_state.specs.Lookup.{is_storage_symbol, symbol_value};
ghost use Rattle.history_state.specs.State.{State};

use ld_base::{Serial, Symbol};
use link_spaces::object_in;
use scope_rule::Namespace;

/// The symbol of a definition by a mapped object; none of the linker's own.
fn symbol_in(namespaces: &[Namespace], serial: Serial, index: u32) -> Option<&Symbol>
    ensures { (s : State) → s.namespaces ≡ namespaces.now → option_copied result ≡ chosen_symbol s (Def serial index) }
{
    let object = object_in(namespaces, serial)?;
    object.object.symbols.as_slice().get(index as usize)
}

/// The value of a symbol of thread-local storage; none of any other.
pub fn variable_in(namespaces: &[Namespace], serial: Serial, index: u32) -> Option<u64>
    ensures some { IfSome result (λ value. (s : State) → s.namespaces ≡ namespaces.now
        → IsTrue (is_storage_symbol s serial index) × (value ≡ symbol_value s serial index)) }
    ensures none { IfNone result ((s : State) → s.namespaces ≡ namespaces.now → is_storage_symbol s serial index ≡ false) }
{
    match symbol_in(namespaces, serial, index) {
        Some(symbol) if symbol.is_tls() => Some(symbol.value),
        _ => None,
    }
}
