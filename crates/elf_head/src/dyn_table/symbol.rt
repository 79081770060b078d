//! The symbol table (gABI, "Symbol Table").

ghost use Rattle.std.specs.Prelude.{◌≡◌, ◌+◌, ◌*◌, ◌≤◌, length, IfOk};
ghost use Rattle.elf_head.specs.DynTable.Symbol.{symbol_named, symbols_in};

use crate::dyn_table::string::read_string;
use ld_base::{Name, SharedBytes, Symbol, Symbols, field16, field32, field64};
use std::alloc::{AllocError, Global};

/// The bytes of one entry.
pub const SYMBOL_SIZE: u64 = 24;

/// The symbol at a place, with this name and with version 0.
fn symbol_at(bytes: &[u8], at: usize, name: Name) -> Symbol
    requires { at + 24 ≤ length bytes.now }
    ensures { result ≡ symbol_named bytes.now at name }
{
    Symbol {
        name,
        value: field64(bytes, at + 8),
        size: field64(bytes, at + 16),
        shndx: field16(bytes, at + 6),
        version: 0,
        info: bytes[at + 4],
        other: bytes[at + 5],
    }
}

/// The first symbols of a table, in order, with version 0. Their names are those of the string table, in its
/// memory; a name of no bytes where there is no string.
///
/// # Errors
///
/// Want of memory.
#[tactic(auto, unfolding(crate::specs::DynTable::Symbol::symbols_in))]
pub fn read_symbols(
    alloc: Global,
    bytes: &[u8],
    strings: &SharedBytes,
    count: u32,
) -> Result<Symbols, AllocError>
    requires { 24 * count ≤ length bytes.now }
    ensures { IfOk result (λ symbols. symbols ≡ symbols_in bytes.now strings.now count) }
{
    let mut symbols = Symbols::with_capacity(alloc, count)?;
    for index in 0..count {
        let at = SYMBOL_SIZE as usize * index as usize;
        let name = read_string(strings, field32(bytes, at).into())?;
        symbols.push(symbol_at(bytes, at, name))?;
    }
    Ok(symbols)
}
