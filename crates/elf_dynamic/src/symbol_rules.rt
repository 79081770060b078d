//! What is asked of symbols (gABI, "Symbol Table").

ghost use Rattle.std.specs.Prelude.{◌≡◌};
ghost use Rattle.ld_base.specs.Symbol.{binding};
ghost use Rattle.elf_dynamic.specs.Rules.{bad_symbol, has_storage, is_bad_symbol};

use elf_head::PT_TLS;
use ld_base::{Header, Symbol};

/// The greatest of the bindings STB_LOCAL, STB_GLOBAL and STB_WEAK.
const STB_WEAK: u8 = 2;
/// The binding of a definition that is the only one in a process.
pub(crate) const STB_GNU_UNIQUE: u8 = 10;

/// The first symbol of another binding, or that defines thread-local storage where no header is of
/// it.
#[tactic(auto, unfolding(crate::specs::Rules::bad_symbol))]
pub(crate) fn bad_symbol(headers: &[Header], symbols: &[Symbol]) -> Option<usize>
    ensures { result ≡ bad_symbol headers.now symbols.now }
{
    let has_storage = has_storage(headers);
    symbols
        .iter()
        .position(|symbol| is_bad_symbol(has_storage, symbol))
}

/// Whether the symbol is of another binding, or defines thread-local storage that isn't there.
fn is_bad_symbol(has_storage: bool, symbol: &Symbol) -> bool
    ensures { result ≡ is_bad_symbol has_storage symbol.now }
{
    let binding = binding_of(symbol);
    let is_known = binding <= STB_WEAK || binding == STB_GNU_UNIQUE;
    !is_known || (symbol.is_defined() && symbol.is_tls() && !has_storage)
}

/// The binding of a symbol (STB).
pub(crate) fn binding_of(symbol: &Symbol) -> u8
    ensures { result ≡ binding symbol.now }
{
    symbol.info / 16
}

/// Whether some header is of thread-local storage.
fn has_storage(headers: &[Header]) -> bool
    ensures { result ≡ has_storage headers.now }
{
    headers.iter().any(|header| header.kind == PT_TLS)
}
