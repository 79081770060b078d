//! The references of an object of a namespace.

ghost use Rattle.std.specs.Prelude.{◌≡◌, Some, IfOk};
ghost use Rattle.std.specs.List.{slice_get};
ghost use Rattle.scope_rule.specs.Seen.{seen_in};
ghost use Rattle.scope_lists.specs.Lists.{AreListsOf, IsListedAt};
ghost use Rattle.sym_lookup.specs.Looking.{HaveTables};

use ld_base::Loaded;
use scope_rule::Namespace;
use std::alloc::{AllocError, Global};
use sym_lookup::{References, SearchLists};

/// Those of the object at a place in load order.
pub(crate) fn references_at<'a>(
    alloc: Global,
    ns: &'a Namespace,
    lists: &'a SearchLists,
    place: usize,
    owner: &'a Loaded,
) -> Result<References<'a>, AllocError>
    requires lists { AreListsOf (seen_in ns.now) lists.now }
    requires listed { IsListedAt lists.now place }
    requires tables { HaveTables (seen_in ns.now) }
    requires there { slice_get ns.now.objects place ≡ Some owner.now }
    ensures { IfOk result (λ references. references ≡ record { seen = seen_in ns.now; owner = owner.now }) }
{
    References::at(alloc, &ns.view(), lists, place, owner)
}
