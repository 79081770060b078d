//! Where a name is searched that isn't a relocation's.

ghost use Rattle.std.specs.Prelude.{◌≡◌, IfOk};
ghost use Rattle.scope_rule.specs.Searching.{in_breadth, in_global};
ghost use Rattle.scope_rule.specs.Seen.{seen};

use crate::breadth_first::breadth;
use crate::choosing::first_with;
use crate::view::View;
use ld_base::{Serial, Want};
use std::alloc::{AllocError, Global};

/// What dlsym finds on a handle: the first definition among the objects that its root leads to,
/// with its symbol (dlsym(3)).
///
/// # Errors
///
/// Want of memory.
#[tactic(auto, unfolding(crate::specs::Searching::in_breadth))]
pub fn search_breadth(
    alloc: Global,
    view: &View,
    root: Serial,
    name: &[u8],
    want: &Want,
) -> Result<Option<(Serial, u32)>, AllocError>
    ensures { IfOk result (λ found. found ≡ in_breadth (seen view.now) root name.now want.now) }
{
    let order = breadth(alloc, view, root)?;
    Ok(first_with(view, name, want, order.as_slice()))
}

/// What dlsym finds on RTLD_DEFAULT: the first definition among the global objects, then the
/// linker's own (dlsym(3)).
#[tactic(auto, using(crate::specs::Lemmas::Orders::first_of_two), unfolding(crate::specs::Searching::in_global))]
pub fn search_global(view: &View, name: &[u8], want: &Want) -> Option<(Serial, u32)>
    ensures { result ≡ in_global (seen view.now) name.now want.now }
{
    match first_with(view, name, want, view.global) {
        Some(found) => Some(found),
        None => first_with(view, name, want, &[Serial::LINKER]),
    }
}
