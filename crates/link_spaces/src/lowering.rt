//! One opening less.

ghost use Rattle.std.specs.Prelude.{◌≡◌, ◌==◌, filter, map, not};
ghost use Rattle.history_state.specs.Step.{lowered_in, lowered_open};

use ld_base::Serial;
use scope_rule::{Namespace, OpenRec, Opens};
use std::alloc::Global;
use std::mem;

/// Takes one opening less of a handle: an opening that doesn't count any more goes.
pub fn lower(alloc: Global, namespaces: &mut [Namespace], handle: Serial)
    ensures { namespaces.new ≡ map (lowered_in handle) namespaces.old }
{
    for namespace in namespaces.iter_mut() {
        lower_in(alloc, namespace, handle);
    }
}

/// The same in one namespace.
fn lower_in(alloc: Global, namespace: &mut Namespace, handle: Serial)
    ensures { namespace.new ≡ lowered_in handle namespace.old }
{
    let opens = mem::replace(&mut namespace.opens, Opens::new(alloc));
    namespace.opens = counted(lowered(opens, handle));
}

/// The openings that count.
fn counted(opens: Opens) -> Opens
    ensures { result ≡ filter (λ r. not (r.count == 0)) opens }
{
    let mut opens = opens.into_vec();
    opens.retain(|opening| opening.count != 0);
    Opens::from(opens)
}

/// Openings, of which each of the handle counts one less.
fn lowered(opens: Opens, handle: Serial) -> Opens
    ensures { result ≡ map (lowered_open handle) opens }
{
    let mut opens = opens.into_vec();
    lower_all(opens.as_mut_slice(), handle);
    Opens::from(opens)
}

/// Each of the handle counts one less.
fn lower_all(opens: &mut [OpenRec], handle: Serial)
    ensures { opens.new ≡ map (lowered_open handle) opens.old }
{
    for opening in opens.iter_mut() {
        lower_open(opening, handle);
    }
}

/// It counts one less, where it is of the handle.
fn lower_open(opening: &mut OpenRec, handle: Serial)
    ensures { opening.new ≡ lowered_open handle opening.old }
{
    if opening.root == handle {
        opening.count = opening.count.saturating_sub(1);
    }
}
