//! Breadth-first order, in one step for each object that an object's names found, up to the level with which
//! all are there.

ghost use Rattle.std.specs.Prelude.{◌≡◌, ◌≤◌, ◌&&◌, nat_le, length, drop, flat_map, IfOk, OnOk};
ghost use Rattle.std.specs.List.{list_all};
ghost use Rattle.scope_rule.specs.Breadth.{breadth, extend, has, order_to};
ghost use Rattle.scope_rule.specs.Loading.{found_of};
ghost use Rattle.scope_rule.specs.Seen.{seen};
ghost use Rattle.scope_lists.specs.Links.{AreLinks};

use crate::links::Links;
use indexmap::IndexSet;
use ld_base::Serial;
use scope_rule::{View, extend};
use std::alloc::{AllocError, Global};

/// Puts the next level at the end: what the entries from `start` on found.
fn extend_by_level(
    view: &View,
    links: &Links,
    order: &mut IndexSet<Serial>,
    start: usize,
) -> Result<(), AllocError>
    requires links { AreLinks (seen view.now) links.now }
    requires start { start ≤ length order.old.keys }
    ensures { OnOk result (order.new.keys ≡ extend order.old.keys (flat_map (found_of (seen view.now)) (drop start order.old.keys))) }
{
    let end = order.len();
    for i in start..end {
        let serial = order.as_slice()[i];
        extend(order, links.found_of(serial))?;
    }
    Ok(())
}

/// Whether the order has each of some objects.
pub(crate) fn has_each(order: &IndexSet<Serial>, serials: &[Serial]) -> bool
    ensures { result ≡ list_all (λ serial. has order.now.keys serial) serials.now }
{
    serials.iter().all(|serial| order.contains(serial))
}

/// Whether the order has everything that any object found, so that no level puts anything at its end. It is
/// looked through only where the order is as long.
fn has_all(order: &IndexSet<Serial>, all: &[Serial]) -> bool
    ensures { result ≡ (nat_le (length all.now) (length order.now.keys) && list_all (λ serial. has order.now.keys serial) all.now) }
{
    order.len() >= all.len() && has_each(order, all)
}

/// Puts so many levels at the end, as far as there are any that put something there.
fn extend_by_levels(
    view: &View,
    links: &Links,
    order: &mut IndexSet<Serial>,
    most: usize,
) -> Result<(), AllocError>
    requires { AreLinks (seen view.now) links.now }
    ensures { OnOk result (order.new.keys ≡ order_to (found_of (seen view.now)) order.old.keys most) }
{
    let mut start = 0;
    for _ in 0..most {
        let end = order.len();
        if start == end {
            return Ok(());
        }
        if has_all(order, links.all.as_slice()) {
            return Ok(());
        }
        extend_by_level(view, links, order, start)?;
        start = end;
    }
    Ok(())
}

/// The objects that a root leads to by the names that it and they need, breadth-first, each once
/// (gABI, "Shared Object Dependencies").
pub(crate) fn breadth(
    alloc: Global,
    view: &View,
    links: &Links,
    root: Serial,
) -> Result<IndexSet<Serial>, AllocError>
    requires { AreLinks (seen view.now) links.now }
    ensures { IfOk result (λ order. order.keys ≡ breadth (seen view.now) root) }
{
    let mut order = IndexSet::new(alloc);
    extend(&mut order, &[root])?;
    let most = view.objects.len() + view.added.len();
    extend_by_levels(view, links, &mut order, most)?;
    Ok(order)
}
