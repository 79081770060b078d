//! Calls that are refused.

ghost use Rattle.std.specs.Prelude.{◌≡◌, IfOk, OnErr, OnOk};
ghost use Rattle.history_journal.specs.Following.{MayFollow};
ghost use Rattle.history_calls.specs.declared.link_served.served.Served.TheVariants.{Refused};
ghost use Rattle.link_state.specs.Table.{appended};
ghost use Rattle.link_holds.specs.Events.{refusal};

use history_calls::Served;
use history_event::Ask;
use ld_base::{DlFault, HartId};
use link_lists::Copied;
use link_state::LinkState;
use std::alloc::{AllocError, Global};

/// A call of the hart is refused, which is noted and kept for it.
///
/// # Errors
///
/// Want of memory. Nothing has changed then.
pub(crate) fn refuse(
    alloc: Global,
    state: &mut LinkState,
    hart: HartId,
    ask: Ask,
    fault: DlFault,
) -> Result<Served, AllocError>
    requires { MayFollow state.old.harts state.old.events (refusal hart ask fault) }
    ensures served { IfOk result (λ came. came ≡ Refused fault) }
    ensures noted { OnOk result (state.new ≡ appended state.old (refusal hart ask fault)) }
    ensures harts { state.new.harts ≡ state.old.harts }
    ensures made { state.new.made ≡ state.old.made }
    ensures err { OnErr result (state.new ≡ state.old) }
{
    let copy = fault.copy(alloc)?;
    state.apply_refusal(hart, ask, fault)?;
    Ok(Served::Refused(copy))
}
