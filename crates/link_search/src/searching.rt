//! Where a name is searched.

ghost use Rattle.std.specs.Prelude.{◌≡◌, find, IfOk};
ghost use Rattle.std.specs.Option.{option_copied};
ghost use Rattle.history_state.specs.Lookup.{found_default, is_opened, search, wanted_of};
ghost use Rattle.history_state.specs.State.{State};
ghost use Rattle.link_search.specs.Finding.{AllHaveTables};

use history_event::SymAsk;
use ld_base::{Serial, Want};
use link_spaces::namespace_in;
use scope_rule::Namespace;
use std::alloc::{AllocError, Global};
use sym_lookup::{lookup_breadth, lookup_global};

/// The handle of all that is global (RTLD_DEFAULT).
pub(crate) const DEFAULT: u64 = 0;

/// What a look-up finds: none where there is no namespace to search, which is that of the caller or that
/// of the handle, and none in it where nothing in there defines the name.
///
/// # Errors
///
/// Want of memory.
pub(crate) fn search_in(
    alloc: Global,
    namespaces: &[Namespace],
    ask: &SymAsk,
    want: &Want,
) -> Result<Option<Option<(Serial, u32)>>, AllocError>
    requires want { want.now ≡ wanted_of ask.now.version }
    requires tables { AllHaveTables namespaces.now }
    ensures { IfOk result (λ found. (s : State) → s.namespaces ≡ namespaces.now → found ≡ search s ask.now) }
{
    if ask.handle == DEFAULT {
        return search_default(alloc, namespaces, ask, want);
    }
    let Some(namespace) = opened_in(namespaces, ask.handle) else {
        return Ok(None);
    };
    let root = Serial::new(ask.handle);
    let view = namespace.view();
    Ok(Some(lookup_breadth(alloc, &view, root, ask.name.as_bytes(), want)?))
}

/// What a look-up finds among all that is global.
///
/// # Errors
///
/// Want of memory.
fn search_default(
    alloc: Global,
    namespaces: &[Namespace],
    ask: &SymAsk,
    want: &Want,
) -> Result<Option<Option<(Serial, u32)>>, AllocError>
    requires want { want.now ≡ wanted_of ask.now.version }
    requires tables { AllHaveTables namespaces.now }
    ensures { IfOk result (λ found. (s : State) → s.namespaces ≡ namespaces.now → found ≡ found_default s ask.now) }
{
    let Some(namespace) = namespace_in(namespaces, ask.ns) else {
        return Ok(None);
    };
    let view = namespace.view();
    Ok(Some(lookup_global(alloc, &view, ask.name.as_bytes(), want)?))
}

/// The namespace in which a handle's object was opened.
fn opened_in(namespaces: &[Namespace], handle: u64) -> Option<&Namespace>
    ensures { option_copied result ≡ find (is_opened handle) namespaces.now }
{
    for namespace in namespaces {
        if is_opened(namespace, handle) {
            return Some(namespace);
        }
    }
    None
}

/// Whether a handle's object was opened in a namespace.
fn is_opened(namespace: &Namespace, handle: u64) -> bool
    ensures { result ≡ is_opened handle namespace.now }
{
    namespace
        .opens
        .as_slice()
        .iter()
        .any(|opening| opening.root.number() == handle)
}
