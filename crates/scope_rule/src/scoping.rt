//! The scope of an object.

ghost use Rattle.std.specs.Prelude.{◌≡◌, ◌++◌, ◌||◌, [], not, if◌then◌else◌, filter, flat_map, OnOk, IfOk};
ghost use Rattle.scope_rule.specs.Breadth.{breadth, has};
ghost use Rattle.scope_rule.specs.Loading.{is_dying, is_dying_at};
ghost use Rattle.scope_rule.specs.Seen.{seen};
ghost use Rattle.scope_rule.specs.Scope.{opened_with, whole_scope, scope};

use crate::breadth_first::breadth_in;
use crate::indexed_view::IndexedView;
use crate::view::{View, is_dying};
use indexmap::IndexSet;
use ld_base::{Loaded, Serial, Serials};
use std::alloc::{AllocError, Global};

/// Puts libraries at the end, if an object is one of them.
fn append_libraries(
    libraries: &IndexSet<Serial>,
    serial: Serial,
    scope: &mut Serials,
) -> Result<(), AllocError>
    ensures { OnOk result (scope.new ≡ scope.old ++ (if has libraries.now.keys serial then libraries.now.keys else [])) }
{
    if libraries.contains(&serial) {
        scope.extend_from_slice(libraries.as_slice())?;
    }
    Ok(())
}

/// Puts at the end what an open brings to the scope of an object.
fn append_opened(
    alloc: Global,
    indexed: &IndexedView,
    owner: &Loaded,
    root: Serial,
    scope: &mut Serials,
) -> Result<(), AllocError>
    ensures { OnOk result (scope.new ≡ scope.old ++ opened_with indexed.now owner.now root) }
{
    let libraries = breadth_in(alloc, indexed, root)?;
    append_libraries(&libraries, owner.serial, scope)
}

/// Puts at the end what the opens bring to the scope of an object.
fn append_opens(
    alloc: Global,
    indexed: &IndexedView,
    owner: &Loaded,
    scope: &mut Serials,
) -> Result<(), AllocError>
    ensures { OnOk result (scope.new ≡ scope.old ++ flat_map (λ r. opened_with indexed.now owner.now r.root) indexed.now.opens) }
{
    for open in indexed.view().opens {
        append_opened(alloc, indexed, owner, open.root, scope)?;
    }
    Ok(())
}

/// Puts what a root leads to at the end.
fn append_breadth(
    alloc: Global,
    indexed: &IndexedView,
    root: Serial,
    scope: &mut Serials,
) -> Result<(), AllocError>
    ensures { OnOk result (scope.new ≡ scope.old ++ breadth indexed.now root) }
{
    let libraries = breadth_in(alloc, indexed, root)?;
    scope.extend_from_slice(libraries.as_slice())
}

/// Puts every object that a reference of the owner may be to, those closing too, into an empty list.
fn fill_scope(
    alloc: Global,
    indexed: &IndexedView,
    owner: &Loaded,
    scope: &mut Serials,
) -> Result<(), AllocError>
    requires { scope.old ≡ [] }
    ensures { OnOk result (scope.new ≡ whole_scope indexed.now owner.now) }
{
    if owner.object.flags.symbolic {
        scope.push(owner.serial)?;
    }
    if !owner.deep {
        scope.extend_from_slice(indexed.view().global)?;
    }
    append_opens(alloc, indexed, owner, scope)?;
    append_breadth(alloc, indexed, owner.serial, scope)?;
    if owner.deep {
        scope.extend_from_slice(indexed.view().global)?;
    }
    scope.push(Serial::LINKER)
}

/// Every object that a reference of the owner may be to, those closing too.
fn whole_scope(alloc: Global, indexed: &IndexedView, owner: &Loaded) -> Result<Serials, AllocError>
    ensures { IfOk result (λ s. s ≡ whole_scope indexed.now owner.now) }
{
    let mut scope = Serials::new(alloc);
    fill_scope(alloc, indexed, owner, &mut scope)?;
    Ok(scope)
}

/// Of these objects those that the owner sees: one that isn't closing sees none that is.
fn visible(
    alloc: Global,
    indexed: &IndexedView,
    owner: &Loaded,
    serials: &[Serial],
) -> Result<Serials, AllocError>
    ensures { IfOk result (λ s. s ≡ filter (λ s. is_dying owner.now || not (is_dying_at indexed.now s)) serials.now) }
{
    let sees_dying = is_dying(owner);
    let seen: Vec<Serial> = serials
        .iter()
        .copied()
        .filter(|serial| sees_dying || !indexed.is_dying(*serial))
        .collect(alloc)?;
    Ok(Serials::from(seen))
}

/// Where the references of an object are searched, in order (gABI, "Shared Object Dependencies").
///
/// # Errors
///
/// Want of memory.
#[tactic(auto, unfolding(crate::specs::Scope::scope))]
pub fn scope(alloc: Global, view: &View, owner: &Loaded) -> Result<Serials, AllocError>
    ensures { IfOk result (λ s. s ≡ scope (seen view.now) owner.now) }
{
    let indexed = IndexedView::of(alloc, view)?;
    let whole = whole_scope(alloc, &indexed, owner)?;
    visible(alloc, &indexed, owner, whole.as_slice())
}
