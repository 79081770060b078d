//! What a look-up asks for.

ghost use Rattle.std.specs.Prelude.{◌≡◌, IfOk};
ghost use Rattle.std.specs.Option.{option_copied};
ghost use Rattle.history_state.specs.Relocating.{version_of};
ghost use Rattle.link_search.specs.Asking.{ask_of};

use history_event::SymAsk;
use ld_base::{Name, NsId, Want};
use link_lists::Copied;
use std::alloc::{AllocError, Global};

/// What a look-up asks for: the namespace of its caller, the handle, the name, and the version where one
/// is wanted.
///
/// # Errors
///
/// Want of memory.
pub fn symbol_ask(
    alloc: Global,
    ns: NsId,
    handle: u64,
    name: &[u8],
    want: &Want,
) -> Result<SymAsk, AllocError>
    ensures { IfOk result (λ ask. ask ≡ ask_of ns handle name.now want.now) }
{
    let name = Name::new(alloc, name)?;
    let version = match version_of(want) {
        Some(version) => Some(version.copy(alloc)?),
        None => None,
    };
    Ok(SymAsk {
        ns,
        handle,
        name,
        version,
    })
}

/// The version that is wanted, where one is.
fn version_of(want: &Want) -> Option<&Name>
    ensures { option_copied result ≡ version_of want.now }
{
    match want {
        Want::Version(version) | Want::Dlvsym(version) => Some(version),
        Want::Plain | Want::Dlsym => None,
    }
}
