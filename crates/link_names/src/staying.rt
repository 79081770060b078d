//! Whether search lists stay.

ghost use Rattle.std.specs.Prelude.{◌≡◌, ◌↔◌, ◌==◌, IsTrue};
ghost use Rattle.std.specs.List.{list_all, list_any};
ghost use Rattle.link_names.specs.Leaving.{IsOpenIn, LowersAlone, OpensAgain, counts_still};

use ld_base::{Loaded, NsId, Serial};
use link_spaces::namespace_in;
use scope_rule::{Namespace, OpenRec};

/// Whether an opening leaves the lists of all namespaces as they are: it brings no objects, its root is open in
/// the namespace with the number, and becomes no global one.
pub(crate) fn opening_leaves_lists(
    namespaces: &[Namespace],
    id: NsId,
    added: &[Loaded],
    root: Serial,
    is_global: bool,
) -> bool
    ensures { IsTrue result ↔ OpensAgain namespaces.now id added.now root is_global }
{
    !is_global && added.is_empty() && is_open_in(namespaces, id, root)
}

/// Whether a root is open in the namespace with a number.
fn is_open_in(namespaces: &[Namespace], id: NsId, root: Serial) -> bool
    ensures { IsTrue result ↔ IsOpenIn namespaces.now id root }
{
    match namespace_in(namespaces, id) {
        Some(namespace) => is_open(namespace, root),
        None => false,
    }
}

/// Whether a root is open in a namespace.
fn is_open(namespace: &Namespace, root: Serial) -> bool
    ensures { result ≡ list_any (λ r. r.root == root) namespace.now.opens }
{
    let opens = namespace.opens.as_slice();
    opens.iter().any(|opening| opening.root == root)
}

/// Whether a closing leaves the lists of all namespaces as they are: it takes nothing, and no opening goes.
pub(crate) fn closing_leaves_lists(namespaces: &[Namespace], handle: Serial, set: &[Serial]) -> bool
    ensures { IsTrue result ↔ LowersAlone namespaces.now handle set.now }
{
    set.is_empty() && all_stay_open(namespaces, handle)
}

/// Whether no opening goes where one of a handle less counts.
fn all_stay_open(namespaces: &[Namespace], handle: Serial) -> bool
    ensures { result ≡ list_all (λ ns. list_all (counts_still handle) ns.opens) namespaces.now }
{
    namespaces
        .iter()
        .all(|namespace| stay_open(namespace, handle))
}

/// The same of one namespace.
fn stay_open(namespace: &Namespace, handle: Serial) -> bool
    ensures { result ≡ list_all (counts_still handle) namespace.now.opens }
{
    let opens = namespace.opens.as_slice();
    opens.iter().all(|opening| still_counts(opening, handle))
}

/// Whether an opening counts where one of a handle less does.
fn still_counts(opening: &OpenRec, handle: Serial) -> bool
    ensures { result ≡ counts_still handle opening.now }
{
    if opening.root == handle {
        opening.count > 1
    } else {
        opening.count != 0
    }
}
