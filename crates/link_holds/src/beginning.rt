//! The lists before the first event.

ghost use Rattle.std.specs.Prelude.{◌≡◌, [], ◌∷◌, IfOk};
ghost use Rattle.history_state.specs.State.{empty_namespace};
ghost use Rattle.history_calls.specs.Served.{InstallsNothing};

use history_calls::{Installs, SlotWords};
use ld_base::NsId;
use link_spaces::empty_namespace;
use scope_rule::Namespace;
use seg_image::Images;
use std::alloc::{AllocError, Global};

/// The base namespace, with nothing in it.
///
/// # Errors
///
/// Want of memory.
pub fn base_namespaces(alloc: Global) -> Result<Vec<Namespace>, AllocError>
    ensures { IfOk result (λ all. all.items ≡ empty_namespace 0 ∷ []) }
{
    let mut namespaces = Vec::with_capacity(alloc, 1)?;
    namespaces.push_reserved(empty_namespace(alloc, NsId::BASE));
    Ok(namespaces)
}

/// Nothing for guest memory.
pub fn nothing(alloc: Global) -> Installs
    ensures { InstallsNothing result }
{
    Installs {
        images: Images::new(alloc),
        slots: SlotWords::new(alloc),
        areas: Images::new(alloc),
    }
}
