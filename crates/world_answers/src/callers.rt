//! Which namespace a caller is in.

ghost use Rattle.std.specs.Prelude.{◌≡◌, IsTrue};
ghost use Rattle.history_state.specs.After.{after};
ghost use Rattle.history_state.specs.Objects.{has_namespace};
ghost use Rattle.history_calls.specs.Call.{caller_namespace};

use history_calls::callers_are_there;
use history_journal::accepted_object;
use ld_base::NsId;
use link_state::LinkState;

/// The namespace of a caller, which is there: that of the object whose pages hold the address that the
/// call returns to, and the base where none does.
pub(crate) fn caller_in(state: &LinkState, address: u64) -> NsId
    ensures is { result ≡ caller_namespace (after state.now.events) address }
    ensures there { IsTrue (has_namespace (after state.now.events) result) }
{
    callers_are_there();
    accepted_object();
    let _ = state.journal();
    match state.holder(address) {
        Some((namespace, _)) => namespace,
        None => NsId::BASE,
    }
}
