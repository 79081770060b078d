//! Closings.

ghost use Rattle.std.specs.Prelude.{◌≡◌, IfOk, OnErr};
ghost use Rattle.link_calls.specs.Coming.{ComesIn};
ghost use Rattle.history_state.specs.After.{after};
ghost use Rattle.history_calls.specs.Call.{closes};
ghost use Rattle.link_state.specs.Closing.{IsPlanOf};

use crate::destructors::closing_destructors;
use crate::refusing::refuse;
use close_mark::ClosingPlan;
use history_calls::{Served, closings_keep};
use history_event::Ask;
use ld_base::{DlFault, HartId};
use link_state::{CloseFault, LinkState};
use std::alloc::{AllocError, Global};

/// Closes a handle once (dlclose(3)). Where nothing needs some objects any more, the hart is to run their
/// destructors, and then they are to be unmapped. A handle of no opening that may be closed is refused
/// (bad-handle).
pub fn dlclose(alloc: Global, state: &mut LinkState, hart: HartId, handle: u64) -> Served
    ensures served { ComesIn state.old hart (closes handle) result state.new }
    ensures harts { state.new.harts ≡ state.old.harts }
    ensures made { state.new.made ≡ state.old.made }
{
    close(alloc, state, hart, handle).unwrap_or(Served::Memory)
}

/// The same.
///
/// # Errors
///
/// Want of memory. Nothing has changed then.
fn close(
    alloc: Global,
    state: &mut LinkState,
    hart: HartId,
    handle: u64,
) -> Result<Served, AllocError>
    ensures served { IfOk result (λ came. ComesIn state.old hart (closes handle) came state.new) }
    ensures harts { state.new.harts ≡ state.old.harts }
    ensures made { state.new.made ≡ state.old.made }
    ensures err { OnErr result (state.new ≡ state.old) }
{
    match state.plan_close(hart, handle) {
        Ok(plan) => close_as_planned(alloc, state, hart, handle, plan),
        Err(CloseFault::BadHandle(_)) => {
            let fault = DlFault::BadHandle(handle);
            refuse(alloc, state, hart, Ask::Close(handle), fault)
        }
        Err(CloseFault::Memory) => Err(AllocError),
    }
}

/// Closes a handle that may be closed, as planned. The destructors of what dies are had first: from then on
/// nothing takes memory but the state's own lists, and these before anything changes.
///
/// # Errors
///
/// Want of memory. Nothing has changed then.
fn close_as_planned(
    alloc: Global,
    state: &mut LinkState,
    hart: HartId,
    handle: u64,
    plan: ClosingPlan,
) -> Result<Served, AllocError>
    requires { IsPlanOf (after state.old.events) hart handle plan }
    ensures served { IfOk result (λ came. ComesIn state.old hart (closes handle) came state.new) }
    ensures harts { state.new.harts ≡ state.old.harts }
    ensures made { state.new.made ≡ state.old.made }
    ensures err { OnErr result (state.new ≡ state.old) }
{
    closings_keep();
    let functions = closing_destructors(alloc, state, plan.list.as_slice())?;
    let dying = state.close_planned(hart, handle, plan)?;
    if dying.list.is_empty() {
        return Ok(Served::Done(0));
    }
    Ok(Served::Closing(dying, functions))
}
