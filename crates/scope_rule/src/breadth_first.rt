//! Breadth-first order, in one step for each name of an object that is reached, up to the first level that adds
//! nothing.

ghost use Rattle.std.specs.Prelude.{◌≡◌, ◌≤◌, [], ◌∷◌, length, drop, flat_map, OnOk, IfOk};
ghost use Rattle.scope_rule.specs.Breadth.{breadth, extend, order_to};
ghost use Rattle.scope_rule.specs.Loading.{found_of};
ghost use Rattle.scope_rule.specs.Seen.{seen};

use crate::indexed_view::IndexedView;
use crate::view::View;
use indexmap::IndexSet;
use ld_base::{Serial, Serials};
use std::alloc::{AllocError, Global};

/// Puts a serial at the end if the order lacks it; the linker's own is left out.
fn extend_by_one(order: &mut IndexSet<Serial>, serial: Serial) -> Result<(), AllocError>
    ensures { OnOk result (order.new.keys ≡ extend order.old.keys (serial ∷ [])) }
{
    if serial != Serial::LINKER {
        order.insert(serial)?;
    }
    Ok(())
}

/// Puts those serials at the end that the order lacks; the linker's own is left out.
///
/// # Errors
///
/// Want of memory.
pub fn extend(order: &mut IndexSet<Serial>, serials: &[Serial]) -> Result<(), AllocError>
    ensures { OnOk result (order.new.keys ≡ extend order.old.keys serials.now) }
{
    for serial in serials {
        extend_by_one(order, *serial)?;
    }
    Ok(())
}

/// Puts what the names of an object found at the end.
fn extend_by_found(
    indexed: &IndexedView,
    order: &mut IndexSet<Serial>,
    serial: Serial,
) -> Result<(), AllocError>
    ensures { OnOk result (order.new.keys ≡ extend order.old.keys (found_of indexed.now serial)) }
{
    if serial == Serial::LINKER {
        return Ok(());
    }
    match indexed.object(serial) {
        Some(object) => extend(order, object.found.as_slice()),
        None => Ok(()),
    }
}

/// Puts the next level at the end: what the entries from `start` on found.
fn extend_by_level(
    indexed: &IndexedView,
    order: &mut IndexSet<Serial>,
    start: usize,
) -> Result<(), AllocError>
    requires { start ≤ length order.old.keys }
    ensures { OnOk result (order.new.keys ≡ extend order.old.keys (flat_map (found_of indexed.now) (drop start order.old.keys))) }
{
    let end = order.len();
    for i in start..end {
        let serial = order.as_slice()[i];
        extend_by_found(indexed, order, serial)?;
    }
    Ok(())
}

/// Puts so many levels at the end, as far as there are any that put something there.
fn extend_by_levels(
    indexed: &IndexedView,
    order: &mut IndexSet<Serial>,
    most: usize,
) -> Result<(), AllocError>
    ensures { OnOk result (order.new.keys ≡ order_to (found_of indexed.now) order.old.keys most) }
{
    let mut start = 0;
    for _ in 0..most {
        let end = order.len();
        if start == end {
            return Ok(());
        }
        extend_by_level(indexed, order, start)?;
        start = end;
    }
    Ok(())
}

/// The objects that a root leads to by the names that it and they need, breadth-first, each once
/// (gABI, "Shared Object Dependencies").
///
/// # Errors
///
/// Want of memory.
pub fn breadth(alloc: Global, view: &View, root: Serial) -> Result<Serials, AllocError>
    ensures { IfOk result (λ order. order ≡ breadth (seen view.now) root) }
{
    let indexed = IndexedView::of(alloc, view)?;
    let order = breadth_in(alloc, &indexed, root)?;
    Serials::from_slice(alloc, order.as_slice())
}

/// The same as [`breadth`], of a view that is indexed once for many roots.
///
/// # Errors
///
/// Want of memory.
pub fn breadth_in(
    alloc: Global,
    indexed: &IndexedView,
    root: Serial,
) -> Result<IndexSet<Serial>, AllocError>
    ensures { IfOk result (λ order. order.keys ≡ breadth indexed.now root) }
{
    let mut order = IndexSet::new(alloc);
    extend_by_one(&mut order, root)?;
    let view = indexed.view();
    let most = view.objects.len() + view.added.len();
    extend_by_levels(indexed, &mut order, most)?;
    Ok(order)
}
