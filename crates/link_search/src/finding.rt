//! The definition that a look-up finds, or why it finds none.

ghost use Rattle.std.specs.Prelude.{◌≡◌, ℕ, IfErr, IfOk, IsTrue, Some};
ghost use Rattle.std.specs.Option.{option_copied};
ghost use Rattle.ld_base.specs.declared.fault.DlFault.TheVariants.{MissingSymbol};
ghost use Rattle.history_state.specs.Lookup.{IsShort, search, searched_object, wanted_of};
ghost use Rattle.history_state.specs.Objects.{has_namespace};
ghost use Rattle.history_state.specs.State.{State};
ghost use Rattle.link_search.specs.Finding.{AllHaveTables, IsSymFault};
ghost use Rattle.link_search.specs.declared.finding.SymFault.TheVariants.{Memory};

use crate::searching::{DEFAULT, search_in};
use history_event::SymAsk;
use ld_base::{DlFault, Name, Serial, Want};
use link_lists::Copied;
use link_spaces::object_in;
use scope_rule::Namespace;
use std::alloc::{AllocError, Global};

/// Why a look-up gives no address.
#[derive(Drop)]
pub enum SymFault {
    /// It is refused.
    Refused(DlFault),
    /// Want of memory.
    Memory,
}

impl From<AllocError> for SymFault {
    ghost from_gives = { λ _ fault. fault ≡ Memory };

    fn from(_: AllocError) -> Self {
        SymFault::Memory
    }
}

/// The definition that a look-up of a name and a version of a length that may be asked for finds.
///
/// # Errors
///
/// That the handle is of no opening, that nothing where it searches defines the name, or want of memory.
pub fn find_symbol(
    alloc: Global,
    namespaces: &[Namespace],
    ask: &SymAsk,
    want: &Want,
) -> Result<(Serial, u32), SymFault>
    requires want { want.now ≡ wanted_of ask.now.version }
    requires short { IsShort ask.now }
    requires tables { AllHaveTables namespaces.now }
    ensures found { IfOk result (λ p. (s : State) → s.namespaces ≡ namespaces.now → search s ask.now ≡ Some (Some (p.0, p.1))) }
    ensures refused { IfErr result (λ e. (s : State) (hart : ℕ) → s.namespaces ≡ namespaces.now → IsTrue (has_namespace s ask.now.ns)
        → IsSymFault s hart ask.now e) }
{
    match search_in(alloc, namespaces, ask, want)? {
        Some(Some(found)) => Ok(found),
        Some(None) => Err(SymFault::Refused(missing_symbol(alloc, namespaces, ask)?)),
        None => Err(SymFault::Refused(DlFault::BadHandle(ask.handle))),
    }
}

/// That nothing defines the name.
///
/// # Errors
///
/// Want of memory.
fn missing_symbol(
    alloc: Global,
    namespaces: &[Namespace],
    ask: &SymAsk,
) -> Result<DlFault, AllocError>
    ensures { IfOk result (λ fault. (s : State) → s.namespaces ≡ namespaces.now
        → fault ≡ MissingSymbol (searched_object s ask.now.handle) ask.now.name ask.now.version) }
{
    let object = match searched_object(namespaces, ask.handle) {
        Some(path) => Some(path.copy(alloc)?),
        None => None,
    };
    let name = ask.name.copy(alloc)?;
    let version = ask.version.copy(alloc)?;
    Ok(DlFault::MissingSymbol(object, name, version))
}

/// The path of a handle's object; none of the handle of all that is global.
fn searched_object(namespaces: &[Namespace], handle: u64) -> Option<&Name>
    ensures { (s : State) → s.namespaces ≡ namespaces.now → option_copied result ≡ searched_object s handle }
{
    if handle == DEFAULT {
        return None;
    }
    let object = object_in(namespaces, Serial::new(handle))?;
    Some(&object.path)
}
