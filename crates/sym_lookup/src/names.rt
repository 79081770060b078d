//! Looking a name up that isn't a relocation's.

ghost use Rattle.std.specs.Prelude.{◌≡◌, ◌∷◌, [], IfOk};
ghost use Rattle.scope_rule.specs.Choose.{first_with, pick_at};
ghost use Rattle.scope_rule.specs.Searching.{in_breadth, in_global};
ghost use Rattle.scope_rule.specs.Seen.{Seen, seen};
ghost use Rattle.sym_lookup.specs.Looking.{HaveTables};

use crate::sym_find::{Asked, Find, Sought};
use ld_base::{Serial, Want};
use scope_rule::{IndexedView, View, breadth_in, linker_symbol};
use std::alloc::{AllocError, Global};

/// What an object of the namespace, or the linker's own, has for a name.
#[tactic(auto, unfolding(scope_rule::specs::Choose::pick_at))]
fn found_at(indexed: &IndexedView, sought: &Sought, serial: Serial) -> Option<u32>
    requires tables { HaveTables indexed.now }
    ensures { result ≡ pick_at indexed.now sought.now.name sought.now.want serial }
{
    if serial == Serial::LINKER {
        return linker_symbol(sought.name());
    }
    let loaded = indexed.object(serial)?;
    loaded.table.find_sought(&loaded.object, None, sought)
}

/// The first of these objects that has a definition, with its symbol.
fn first_found(indexed: &IndexedView, sought: &Sought, serials: &[Serial]) -> Option<(Serial, u32)>
    requires tables { HaveTables indexed.now }
    ensures { result ≡ first_with (pick_at indexed.now sought.now.name sought.now.want) serials.now }
{
    for serial in serials {
        if let Some(index) = found_at(indexed, sought, *serial) {
            return Some((*serial, index));
        }
    }
    None
}

/// What dlsym finds on a handle, as `scope_rule::search_breadth` gives it: each object is asked by its own
/// table.
///
/// # Errors
///
/// Want of memory.
#[tactic(auto, unfolding(scope_rule::specs::Searching::in_breadth))]
pub fn lookup_breadth(
    alloc: Global,
    view: &View,
    root: Serial,
    name: &[u8],
    want: &Want,
) -> Result<Option<(Serial, u32)>, AllocError>
    requires tables { HaveTables (seen view.now) }
    ensures { IfOk result (λ found. found ≡ in_breadth (seen view.now) root name.now want.now) }
{
    let sought = Sought::new(name, Asked::of(want));
    let indexed = IndexedView::of(alloc, view)?;
    let order = breadth_in(alloc, &indexed, root)?;
    Ok(first_found(&indexed, &sought, order.as_slice()))
}

/// What dlsym finds on RTLD_DEFAULT, as `scope_rule::search_global` gives it: each object is asked by its own
/// table.
///
/// # Errors
///
/// Want of memory.
pub fn lookup_global(
    alloc: Global,
    view: &View,
    name: &[u8],
    want: &Want,
) -> Result<Option<(Serial, u32)>, AllocError>
    requires tables { HaveTables (seen view.now) }
    ensures { IfOk result (λ found. found ≡ in_global (seen view.now) name.now want.now) }
{
    let sought = Sought::new(name, Asked::of(want));
    let indexed = IndexedView::of(alloc, view)?;
    match first_found(&indexed, &sought, view.global) {
        Some(found) => Ok(Some(found)),
        None => Ok(found_in_linker(&sought)),
    }
}

/// The linker's own object, which is searched behind all others, with the symbol that it has for a name.
#[tactic(auto, unfolding(scope_rule::specs::Choose::pick_at))]
fn found_in_linker(sought: &Sought) -> Option<(Serial, u32)>
    ensures { (s : Seen) → result ≡ first_with (pick_at s sought.now.name sought.now.want) (0 ∷ []) }
{
    let index = linker_symbol(sought.name())?;
    Some((Serial::LINKER, index))
}
