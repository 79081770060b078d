//! A closing that is made.

ghost use Rattle.std.specs.Prelude.{◌≡◌, ◌<◌, ◌++◌};
ghost use Rattle.std.specs.Option.{option_to_list};
ghost use Rattle.close_mark.specs.ClosingPlans.Plans.{closed_by};

use ld_base::{HartId, Serial};
use link_spaces::{Pending, PendingClosings, lower, make_dying};
use scope_rule::Namespace;
use std::alloc::Global;

/// One opening less of a handle counts, and these objects die by a hart.
pub fn close_in(
    alloc: Global,
    namespaces: &mut Vec<Namespace>,
    hart: HartId,
    handle: Serial,
    set: &[Serial],
)
    ensures { namespaces.new.items ≡ closed_by hart handle set.now namespaces.old.items }
{
    close_all(alloc, namespaces.as_mut_slice(), hart, handle, set);
}

/// The same of namespaces in a slice.
fn close_all(
    alloc: Global,
    namespaces: &mut [Namespace],
    hart: HartId,
    handle: Serial,
    set: &[Serial],
)
    ensures { namespaces.new ≡ closed_by hart handle set.now namespaces.old }
{
    lower(alloc, namespaces, handle);
    make_dying(alloc, namespaces, hart, set);
}

/// A closing waits for its unmapping, where there is one; there is room for it.
pub fn wait(closings: &mut PendingClosings, pending: Option<Pending>)
    requires { 0 < closings.old.spare }
    ensures { closings.new.closings ≡ closings.old.closings ++ option_to_list pending }
{
    if let Some(pending) = pending {
        closings.push(pending);
    }
}
