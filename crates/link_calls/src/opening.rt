//! Openings.

ghost use Rattle.std.specs.Prelude.{◌≡◌, ◌≤◌, false, Some, IfOk, OnErr};
ghost use Rattle.std.specs.Option.{option_copied};
ghost use Rattle.history_calls.specs.CallLaws.Coming.{NeedsNoRead, refusal_of};
ghost use Rattle.history_calls.specs.CallLaws.Counts.{ArePaths, ShowsInCounts};
ghost use Rattle.link_calls.specs.Opening.{OpensIn, OpensUnlessReadsFail, asked};
ghost use Rattle.history_state.specs.After.{after};
ghost use Rattle.history_state.specs.Objects.{is_startup};
ghost use Rattle.history_calls.specs.Call.{asked_namespace, dlmopen, dlopen_in, opens};

use crate::link_opening::plan;
use crate::loading::carry_out;
use crate::names::known;
use crate::refusing::refuse;
use history_calls::{Served, only_failed_reads_stop};
use history_event::{Ask, OpenAsk};
use ld_base::{HartId, Name, Names, NsId};
use library_source::Library;
use link_open_plan::Unopened;
use link_state::LinkState;
use std::alloc::{AllocError, Global};

/// What dlmopen takes for a new namespace (LM_ID_NEWLM).
const NEW_NAMESPACE: u64 = u64::MAX;

/// Opens an object by its name, with all that it needs, in the namespace of the caller; where there is no name
/// it opens the program, of the base alone (dlopen(3)). Startup is over. Where objects are loaded, the hart is to
/// run their constructors; with RTLD_NOLOAD an object that isn't there answers 0; where another hart starts or
/// closes an object that is found, the hart is to try again. The library's counts show that a read failed, and
/// that paths were missed.
pub fn dlopen<L: Library>(
    alloc: Global,
    state: &mut LinkState,
    hart: HartId,
    caller: NsId,
    name: Option<&[u8]>,
    flags: u64,
    folders: &Names,
    library: &mut L,
) -> Served
    requires started { is_startup (after state.old.events) ≡ false }
    ensures served { OpensIn state.old folders.now (L.files library.old) hart (dlopen_in caller (option_copied name.entry) flags) result state.new }
    ensures whole { OpensUnlessReadsFail state.old folders.now (L.files library.old) (L.faults library.old) (L.faults library.new) hart
        (asked (Some caller) (option_copied name.entry) flags) result }
    ensures counts { ShowsInCounts (ArePaths folders.now) (refusal_of result)
        (L.faults library.old) (L.faults library.new) (L.misses library.old) (L.misses library.new) }
    ensures unread { NeedsNoRead (after state.old.events) (asked (Some caller) (option_copied name.entry) flags) → library.new ≡ library.old }
    ensures files { L.files library.new ≡ L.files library.old }
    ensures faults { L.faults library.old ≤ L.faults library.new }
    ensures misses { L.misses library.old ≤ L.misses library.new }
    ensures harts { state.new.harts ≡ state.old.harts }
    ensures made { state.new.made ≡ state.old.made }
{
    only_failed_reads_stop();
    let ns = Some(u64::from(caller.number()));
    open(alloc, state, hart, ns, name, flags, folders, library).unwrap_or(Served::Memory)
}

/// Opens an object as [`dlopen`] does, in the namespace with a number, or in a new one (dlmopen(3)).
pub fn dlmopen<L: Library>(
    alloc: Global,
    state: &mut LinkState,
    hart: HartId,
    ns: u64,
    name: Option<&[u8]>,
    flags: u64,
    folders: &Names,
    library: &mut L,
) -> Served
    requires started { is_startup (after state.old.events) ≡ false }
    ensures served { OpensIn state.old folders.now (L.files library.old) hart (dlmopen ns (option_copied name.entry) flags) result state.new }
    ensures whole { OpensUnlessReadsFail state.old folders.now (L.files library.old) (L.faults library.old) (L.faults library.new) hart
        (asked (asked_namespace ns) (option_copied name.entry) flags) result }
    ensures counts { ShowsInCounts (ArePaths folders.now) (refusal_of result)
        (L.faults library.old) (L.faults library.new) (L.misses library.old) (L.misses library.new) }
    ensures unread { NeedsNoRead (after state.old.events) (asked (asked_namespace ns) (option_copied name.entry) flags) → library.new ≡ library.old }
    ensures files { L.files library.new ≡ L.files library.old }
    ensures faults { L.faults library.old ≤ L.faults library.new }
    ensures misses { L.misses library.old ≤ L.misses library.new }
    ensures harts { state.new.harts ≡ state.old.harts }
    ensures made { state.new.made ≡ state.old.made }
{
    only_failed_reads_stop();
    let space = namespace_asked(ns);
    open(alloc, state, hart, space, name, flags, folders, library).unwrap_or(Served::Memory)
}

/// What an opening comes to, in a namespace or in a new one.
///
/// # Errors
///
/// Want of memory. The state is as it was; the library's counts may have risen.
fn open<L: Library>(
    alloc: Global,
    state: &mut LinkState,
    hart: HartId,
    ns: Option<u64>,
    name: Option<&[u8]>,
    flags: u64,
    folders: &Names,
    library: &mut L,
) -> Result<Served, AllocError>
    requires started { is_startup (after state.old.events) ≡ false }
    ensures served { IfOk result (λ came.
        OpensIn state.old folders.now (L.files library.old) hart (opens (asked ns (option_copied name.entry) flags)) came state.new) }
    ensures counts { IfOk result (λ came. ShowsInCounts (ArePaths folders.now) (refusal_of came)
        (L.faults library.old) (L.faults library.new) (L.misses library.old) (L.misses library.new)) }
    ensures unread { NeedsNoRead (after state.old.events) (asked ns (option_copied name.entry) flags) → library.new ≡ library.old }
    ensures files { L.files library.new ≡ L.files library.old }
    ensures faults { L.faults library.old ≤ L.faults library.new }
    ensures misses { L.misses library.old ≤ L.misses library.new }
    ensures harts { state.new.harts ≡ state.old.harts }
    ensures made { state.new.made ≡ state.old.made }
    ensures err { OnErr result (state.new ≡ state.old) }
{
    let ask = open_ask(alloc, ns, name, flags)?;
    match plan(alloc, state, hart, &ask, folders, library) {
        Ok(plan) => carry_out(alloc, state, hart, ask, plan),
        Err(Unopened::Refused(fault)) => refuse(alloc, state, hart, Ask::Open(ask), fault),
        Err(Unopened::Wait(shown)) => Ok(Served::Again(shown)),
        Err(Unopened::Memory) => Err(AllocError),
    }
}

/// What is asked for.
///
/// # Errors
///
/// Want of memory.
fn open_ask(
    alloc: Global,
    ns: Option<u64>,
    name: Option<&[u8]>,
    flags: u64,
) -> Result<OpenAsk, AllocError>
    ensures { IfOk result (λ ask. ask ≡ asked ns (option_copied name.entry) flags) }
{
    let name = match name {
        Some(name) => Some(Name::new(alloc, known(name))?),
        None => None,
    };
    Ok(OpenAsk { ns, name, flags })
}

/// The namespace that dlmopen's number asks for: none for a new one.
fn namespace_asked(ns: u64) -> Option<u64>
    ensures { result ≡ asked_namespace ns }
{
    if ns == NEW_NAMESPACE { None } else { Some(ns) }
}
