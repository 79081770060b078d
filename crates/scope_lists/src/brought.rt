//! What the openings of a namespace bring to the scopes of its objects.

ghost use Rattle.std.specs.Prelude.{◌≡◌, ◌++◌, OnOk};
ghost use Rattle.scope_lists.specs.Brought.{brought_to};

use crate::breadth_first::breadth;
use crate::links::Links;
use crate::owners::{Owners, stand_apart};
use indexmap::IndexSet;
use ld_base::{Serial, Serials};
use scope_rule::View;
use std::alloc::{AllocError, Global};

/// What the roots of openings lead to, found once: it goes to the scope of each object of that. Openings that
/// can't bring anything to one of the owners are left out.
#[derive(Drop)]
pub(crate) struct Brought {
    orders: Vec<IndexSet<Serial>>,
}

/// Puts what an opening brings to an object at the end.
fn append_order(
    order: &IndexSet<Serial>,
    serial: Serial,
    found: &mut Serials,
) -> Result<(), AllocError>
    ensures { OnOk result (found.new ≡ found.old ++ brought_to order.now.keys serial) }
{
    if order.contains(&serial) {
        found.extend_from_slice(order.as_slice())?;
    }
    Ok(())
}

impl Brought {
    ghost use Rattle.std.specs.Prelude.{◌≡◌, ℕ, true, [], IfOk, OnOk};
    ghost use Rattle.std.specs.List.{list_all};
    ghost use Rattle.scope_rule.specs.Seen.{seen};
    ghost use Rattle.scope_lists.specs.Brought.{AreBrought, BringsMore, brought_of};
    ghost use Rattle.scope_lists.specs.Links.{AreLinks};
    ghost use Rattle.scope_lists.specs.Owners.{leads_elsewhere};

    /// Nothing yet.
    fn new(alloc: Global) -> Self
        ensures { (serial : ℕ) → brought_of result serial ≡ [] }
    {
        Brought {
            orders: Vec::new(alloc),
        }
    }

    /// What the openings of what is seen of a namespace bring to the owners.
    pub(crate) fn of(
        alloc: Global,
        view: &View,
        links: &Links,
        owners: &Owners,
    ) -> Result<Self, AllocError>
        requires { AreLinks (seen view.now) links.now }
        ensures { IfOk result (AreBrought (seen view.now) owners.now.serials.keys) }
    {
        let apart = stand_apart(owners, view);
        let mut brought = Brought::new(alloc);
        for opening in view.opens {
            brought.add(alloc, view, links, owners, apart, opening.root)?;
        }
        Ok(brought)
    }

    /// What an opening with a root brings, where the owners stand apart or don't.
    fn add(
        &mut self,
        alloc: Global,
        view: &View,
        links: &Links,
        owners: &Owners,
        apart: bool,
        root: Serial,
    ) -> Result<(), AllocError>
        requires links { AreLinks (seen view.now) links.now }
        requires apart { apart ≡ true → list_all (leads_elsewhere owners.now.serials.keys) (seen view.now).objects ≡ true }
        ensures { OnOk result (BringsMore (seen view.now) owners.now.serials.keys root self.old self.new) }
    {
        if apart && !owners.has(root) {
            return Ok(());
        }
        self.orders.push(breadth(alloc, view, links, root)?)?;
        Ok(())
    }

    /// What they bring to an object.
    pub(crate) fn to(&self, alloc: Global, serial: Serial) -> Result<Serials, AllocError>
        ensures { IfOk result (λ found. found ≡ brought_of self.now serial) }
    {
        let mut found = Serials::new(alloc);
        for order in self.orders.as_slice() {
            append_order(order, serial, &mut found)?;
        }
        Ok(found)
    }
}
