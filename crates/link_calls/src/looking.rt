//! Look-ups of names.

ghost use Rattle.std.specs.Prelude.{◌≡◌, ◌<◌, IfOk, IsTrue, OnErr};
ghost use Rattle.link_calls.specs.Coming.{LooksUpIn};
ghost use Rattle.history_state.specs.After.{after};
ghost use Rattle.history_state.specs.Lookup.{IsShort, IsTooLong, wanted_of};
ghost use Rattle.history_state.specs.Objects.{has_namespace};
ghost use Rattle.history_state.specs.Relocating.{version_of};
ghost use Rattle.history_calls.specs.Call.{dlsym_in, dlvsym_in, looks_up};
ghost use Rattle.link_search.specs.Asking.{ask_of};

use crate::names::LONG_NAME;
use crate::refusing::refuse;
use history_calls::Served;
use history_event::Ask;
use ld_base::{DlFault, HartId, Name, NsId, Want};
use link_search::symbol_ask;
use link_state::{LinkState, SymFault};
use std::alloc::{AllocError, Global};

/// Looks a name up for a caller in a namespace (dlsym(3)): on the handle 0 among all that is global there, and
/// on another in what its object leads to. A variable of thread-local storage is in the hart's block, which is
/// made at its first use. Refused are a name that is too long (name-too-long), a handle other than 0 that isn't
/// open (bad-handle), a name without a definition (missing-symbol), and a block for which there is no room
/// (address-space-full).
pub fn dlsym(
    alloc: Global,
    state: &mut LinkState,
    hart: HartId,
    caller: NsId,
    handle: u64,
    name: &[u8],
) -> Served
    requires hart { hart < state.old.harts }
    requires caller { IsTrue (has_namespace (after state.old.events) caller) }
    ensures served { LooksUpIn state.old hart (dlsym_in caller handle name.now) result state.new }
    ensures harts { state.new.harts ≡ state.old.harts }
{
    find(alloc, state, hart, caller, handle, name).unwrap_or(Served::Memory)
}

/// Looks a name of a version up for a caller in a namespace (dlvsym(3)); the rest is as of [`dlsym`].
pub fn dlvsym(
    alloc: Global,
    state: &mut LinkState,
    hart: HartId,
    caller: NsId,
    handle: u64,
    name: &[u8],
    version: &[u8],
) -> Served
    requires hart { hart < state.old.harts }
    requires caller { IsTrue (has_namespace (after state.old.events) caller) }
    ensures served { LooksUpIn state.old hart (dlvsym_in caller handle name.now version.now) result state.new }
    ensures harts { state.new.harts ≡ state.old.harts }
{
    find_version(alloc, state, hart, caller, handle, name, version).unwrap_or(Served::Memory)
}

/// What dlsym comes to.
///
/// # Errors
///
/// Want of memory. Nothing has changed then.
fn find(
    alloc: Global,
    state: &mut LinkState,
    hart: HartId,
    caller: NsId,
    handle: u64,
    name: &[u8],
) -> Result<Served, AllocError>
    requires hart { hart < state.old.harts }
    requires caller { IsTrue (has_namespace (after state.old.events) caller) }
    ensures served { IfOk result (λ came. LooksUpIn state.old hart (dlsym_in caller handle name.now) came state.new) }
    ensures harts { state.new.harts ≡ state.old.harts }
    ensures err { OnErr result (state.new ≡ state.old) }
{
    if name.len() >= LONG_NAME {
        let known = &name[..LONG_NAME];
        return refuse_long(alloc, state, hart, caller, handle, known, &Want::Dlsym);
    }
    look_up(alloc, state, hart, caller, handle, name, &Want::Dlsym)
}

/// What dlvsym comes to. Beside a name that is too long no version is asked for.
///
/// # Errors
///
/// Want of memory. Nothing has changed then.
fn find_version(
    alloc: Global,
    state: &mut LinkState,
    hart: HartId,
    caller: NsId,
    handle: u64,
    name: &[u8],
    version: &[u8],
) -> Result<Served, AllocError>
    requires hart { hart < state.old.harts }
    requires caller { IsTrue (has_namespace (after state.old.events) caller) }
    ensures served { IfOk result (λ came. LooksUpIn state.old hart (dlvsym_in caller handle name.now version.now) came state.new) }
    ensures harts { state.new.harts ≡ state.old.harts }
    ensures err { OnErr result (state.new ≡ state.old) }
{
    if name.len() >= LONG_NAME {
        let known = &name[..LONG_NAME];
        return refuse_long(alloc, state, hart, caller, handle, known, &Want::Dlsym);
    }
    if version.len() >= LONG_NAME {
        let known = Name::new(alloc, &version[..LONG_NAME])?;
        let want = Want::Dlvsym(known);
        return refuse_long(alloc, state, hart, caller, handle, name, &want);
    }
    let whole = Name::new(alloc, version)?;
    let want = Want::Dlvsym(whole);
    look_up(alloc, state, hart, caller, handle, name, &want)
}

/// A look-up, whose name isn't too long, nor its version.
///
/// # Errors
///
/// Want of memory. Nothing has changed then.
fn look_up(
    alloc: Global,
    state: &mut LinkState,
    hart: HartId,
    caller: NsId,
    handle: u64,
    name: &[u8],
    want: &Want,
) -> Result<Served, AllocError>
    requires hart { hart < state.old.harts }
    requires caller { IsTrue (has_namespace (after state.old.events) caller) }
    requires want { want.now ≡ wanted_of (version_of want.now) }
    requires short { IsShort (ask_of caller handle name.now want.now) }
    ensures served { IfOk result (λ came. LooksUpIn state.old hart (looks_up (ask_of caller handle name.now want.now)) came state.new) }
    ensures harts { state.new.harts ≡ state.old.harts }
    ensures err { OnErr result (state.new ≡ state.old) }
{
    match state.sym(hart, caller, handle, name, want) {
        Ok(value) => Ok(Served::Done(value)),
        Err(SymFault::Refused(fault)) => {
            let ask = symbol_ask(alloc, caller, handle, name, want)?;
            refuse(alloc, state, hart, Ask::Sym(ask), fault)
        }
        Err(SymFault::Memory) => Err(AllocError),
    }
}

/// A look-up whose name or version is too long is refused.
///
/// # Errors
///
/// Want of memory. Nothing has changed then.
fn refuse_long(
    alloc: Global,
    state: &mut LinkState,
    hart: HartId,
    caller: NsId,
    handle: u64,
    name: &[u8],
    want: &Want,
) -> Result<Served, AllocError>
    requires caller { IsTrue (has_namespace (after state.old.events) caller) }
    requires long { IsTooLong (ask_of caller handle name.now want.now) }
    ensures served { IfOk result (λ came. LooksUpIn state.old hart (looks_up (ask_of caller handle name.now want.now)) came state.new) }
    ensures harts { state.new.harts ≡ state.old.harts }
    ensures err { OnErr result (state.new ≡ state.old) }
{
    let ask = symbol_ask(alloc, caller, handle, name, want)?;
    refuse(alloc, state, hart, Ask::Sym(ask), DlFault::NameTooLong)
}
