//! The namespace of an opening that may be closed.

ghost use Rattle.std.specs.Prelude.{◌≡◌, find};
ghost use Rattle.std.specs.Option.{option_copied};
ghost use Rattle.close_mark.specs.ClosingGraph.Graphs.{has_closable, is_closable};

use scope_rule::{Namespace, OpenRec};

/// The serial of the program.
const PROGRAM: u64 = 1;

/// The first namespace with an opening of a handle that may be closed.
pub fn opened_in(namespaces: &[Namespace], handle: u64) -> Option<&Namespace>
    ensures { option_copied result ≡ find (has_closable handle) namespaces.now }
{
    for namespace in namespaces {
        if has_closable(namespace, handle) {
            return Some(namespace);
        }
    }
    None
}

/// Whether a namespace has one.
fn has_closable(namespace: &Namespace, handle: u64) -> bool
    ensures { result ≡ has_closable handle namespace.now }
{
    let opens = namespace.opens.as_slice();
    opens.iter().any(|opening| is_closable(opening, handle))
}

/// Whether an opening is of the handle, and may be closed: startup's own opening, of the program, doesn't
/// count.
fn is_closable(opening: &OpenRec, handle: u64) -> bool
    ensures { result ≡ is_closable handle opening.now }
{
    let own = if opening.root.number() == PROGRAM {
        1
    } else {
        0
    };
    opening.root.number() == handle && opening.count > own
}
