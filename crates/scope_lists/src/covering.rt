//! Whether the global list of a namespace has whatever else is searched for an object.

ghost use Rattle.std.specs.Prelude.{◌≡◌, ◌&&◌};
ghost use Rattle.std.specs.List.{list_all};
ghost use Rattle.scope_rule.specs.Breadth.{has};

use crate::breadth_first::has_each;
use crate::links::Links;
use indexmap::IndexSet;
use ld_base::Serial;
use scope_rule::{OpenRec, View, extend};
use std::alloc::{AllocError, Global};

/// The objects of the global list, where it has all that any names found and the roots of all openings, as
/// once a program is loaded; else none.
#[derive(Drop)]
pub(crate) struct Covering {
    serials: IndexSet<Serial>,
}

/// Whether these have the root of each opening.
fn has_roots(serials: &IndexSet<Serial>, opens: &[OpenRec]) -> bool
    ensures { result ≡ list_all (λ r. has serials.now.keys r.root) opens.now }
{
    opens.iter().all(|opening| serials.contains(&opening.root))
}

/// Whether these have all that any names found, and the roots of all openings.
fn has_whatever(serials: &IndexSet<Serial>, links: &Links, view: &View) -> bool
    ensures { result ≡ (list_all (λ x. has serials.now.keys x) links.now.all && list_all (λ r. has serials.now.keys r.root) view.now.opens.now) }
{
    has_each(serials, links.all.as_slice()) && has_roots(serials, view.opens)
}

impl Covering {
    ghost use Rattle.std.specs.Prelude.{◌≡◌, [], IfOk};
    ghost use Rattle.scope_rule.specs.Breadth.{has};
    ghost use Rattle.scope_rule.specs.Seen.{seen};
    ghost use Rattle.scope_lists.specs.Covering.{IsCovering};
    ghost use Rattle.scope_lists.specs.Links.{AreLinks};

    /// None.
    fn none(alloc: Global) -> Self
        ensures { result.serials.keys ≡ [] }
    {
        Covering {
            serials: IndexSet::new(alloc),
        }
    }

    /// That of what is seen of a namespace.
    pub(crate) fn of(alloc: Global, view: &View, links: &Links) -> Result<Self, AllocError>
        requires { AreLinks (seen view.now) links.now }
        ensures { IfOk result (IsCovering (seen view.now)) }
    {
        let mut serials = IndexSet::new(alloc);
        extend(&mut serials, view.global)?;
        if has_whatever(&serials, links, view) {
            Ok(Covering { serials })
        } else {
            Ok(Covering::none(alloc))
        }
    }

    /// Whether an object is one of them.
    pub(crate) fn has(&self, serial: Serial) -> bool
        ensures { result ≡ has self.now.serials.keys serial }
    {
        self.serials.contains(&serial)
    }
}
