//! What a name leads to.

ghost use Rattle.std.specs.Prelude.{◌≡◌, ◌≤◌, ℕ, List, true, IfErr, IfOk};
ghost use Rattle.std.specs.List.{AllByRecursion};
ghost use Rattle.std.specs.Result.{IsErrOf};
ghost use Rattle.history_calls.specs.CallLaws.Counts.{AreMissed, ArePaths};
ghost use Rattle.ld_base.specs.declared.fault.DlFault.TheVariants.{MissingLibrary, ReadFault};
ghost use Rattle.library_source.specs.Count.{Rises};
ghost use Rattle.history_state.specs.Flags.{is_noload};
ghost use Rattle.history_state.specs.Setting.{Setting};
ghost use Rattle.history_state.specs.State.{State};
ghost use Rattle.link_open_plan.specs.OpeningLoad.Finding.{IsMade, LeadsTo, StopsAt, WasLibrary, ask_of, news_of};

use history_calls::{nothing_leads_nowhere, preload_is_the_programs};
use history_event::OpenAsk;
use ld_base::{HartId, Name, Names, Serial};
use library_source::Library;
use link_lists::{Copied, is_deepbind, is_noload};
use load_order::{LoadAsk, LoadFault, LoadPlan, find_loaded, plan_load};
use scope_rule::{Namespace, finds_loaded, one_outcome};
use std::alloc::{AllocError, Global};

/// What the name of an opening leads to.
#[derive(Drop)]
pub enum Found {
    /// With RTLD_NOLOAD, no object that is there.
    Absent,
    /// With RTLD_NOLOAD, this object.
    There(Serial),
    /// What a load brings: its root, which may have been there, and the new objects.
    New(LoadPlan),
}

/// What the load is asked for.
fn load_ask(
    alloc: Global,
    next: Serial,
    hart: HartId,
    ask: &OpenAsk,
    name: &Name,
    folders: &Names,
) -> Result<LoadAsk, AllocError>
    ensures { IfOk result (λ load. load ≡ ask_of next hart ask.now name.now folders.now) }
{
    let name = name.copy(alloc)?;
    let folders = folders.copy(alloc)?;
    Ok(LoadAsk {
        name,
        folders,
        preload: Names::new(alloc),
        hart,
        next,
        program: false,
        deep: is_deepbind(ask.flags),
    })
}

/// Finds what the name of an opening leads to in a namespace, the next new object getting this serial: with
/// RTLD_NOLOAD an object that is there, and nothing is read; else what a load brings, whose versions are there
/// (dlopen(3)).
///
/// # Errors
///
/// The first refusal that the load meets, that it has to wait for another hart, or want of memory. The library's
/// counts show which reads failed, and which paths were missed.
pub fn find<L: Library>(
    alloc: Global,
    namespace: &Namespace,
    next: Serial,
    hart: HartId,
    ask: &OpenAsk,
    name: &Name,
    folders: &Names,
    library: &mut L,
) -> Result<Found, LoadFault>
    ensures found { (w : Setting) (s : State) (id : ℕ) → IsMade w s ask.now name.now id namespace.now next folders.now (L.files library.old)
        → IfOk result (LeadsTo w s hart ask.now name.now id) }
    ensures stopped { (w : Setting) (s : State) (id : ℕ) → IsMade w s ask.now name.now id namespace.now next folders.now (L.files library.old)
        → IfErr result (StopsAt w s hart ask.now) }
    ensures read { IfOk result (λ found. AllByRecursion WasLibrary (news_of found)) }
    ensures read_fault { (path : List ℕ) → IsErrOf result (LoadFault.Refused (ReadFault path)) → Rises (L.faults library.old) (L.faults library.new) }
    ensures missed { (missing : List ℕ) → IsErrOf result (LoadFault.Refused (MissingLibrary missing))
        → AreMissed (ArePaths folders.now missing) (L.misses library.old) (L.misses library.new) }
    ensures unread { is_noload ask.now.flags ≡ true → library.new ≡ library.old }
    ensures files { L.files library.new ≡ L.files library.old }
    ensures faults { L.faults library.old ≤ L.faults library.new }
    ensures misses { L.misses library.old ≤ L.misses library.new }
{
    nothing_leads_nowhere();
    preload_is_the_programs();
    one_outcome();
    finds_loaded();
    let load = load_ask(alloc, next, hart, ask, name, folders)?;
    if is_noload(ask.flags) {
        match find_loaded(alloc, namespace, &load) {
            Ok(Some(root)) => Ok(Found::There(root)),
            Ok(None) => Ok(Found::Absent),
            Err(fault) => Err(fault),
        }
    } else {
        match plan_load(alloc, namespace, &load, library) {
            Ok(plan) => Ok(Found::New(plan)),
            Err(fault) => Err(fault),
        }
    }
}
