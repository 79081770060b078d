//! Openings.

ghost use Rattle.std.specs.Prelude.{◌≡◌, ◌<◌, ◌≤◌, false};
ghost use Rattle.std.specs.Option.{option_copied};
ghost use Rattle.history_calls.specs.CallLaws.Coming.{NeedsNoRead};
ghost use Rattle.history_state.specs.After.{after};
ghost use Rattle.history_state.specs.Objects.{is_startup};
ghost use Rattle.history_calls.specs.Call.{opens};
ghost use Rattle.world_answers.specs.Answers.{AnswersOver, MayEndIn};
ghost use Rattle.world_answers.specs.Openings.{AnswersUnlessReadsFail, RefusalIsCounted, dlmopen_ask, dlopen_ask};

use crate::callers::caller_in;
use crate::served::answer_with;
use ld_base::{HartId, Names};
use library_source::Library;
use link_state::LinkState;
use std::alloc::Global;
use world_memory::{Answered, MemoryChange};

/// An opening (dlopen(3)) that returns to an address in its caller.
pub(crate) fn dlopen<L: Library>(
    alloc: Global,
    state: &mut LinkState,
    id: HartId,
    caller: u64,
    name: Option<&[u8]>,
    flags: u64,
    folders: &Names,
    library: &mut L,
) -> Answered
    requires hart { id < state.old.harts }
    requires started { is_startup (after state.old.events) ≡ false }
    requires may_end { MayEndIn state.old id }
    ensures answered { AnswersOver state.old folders.now (L.files library.old) id
        (opens (dlopen_ask (after state.old.events) caller (option_copied name.entry) flags)) result state.new }
    ensures whole { AnswersUnlessReadsFail state.old folders.now (L.files library.old) (L.faults library.old) (L.faults library.new) id
        (dlopen_ask (after state.old.events) caller (option_copied name.entry) flags) result }
    ensures counts { RefusalIsCounted folders.now state.old.events state.new.events id
        (L.faults library.old) (L.faults library.new) (L.misses library.old) (L.misses library.new) }
    ensures unread { NeedsNoRead (after state.old.events) (dlopen_ask (after state.old.events) caller (option_copied name.entry) flags)
        → library.new ≡ library.old }
    ensures files { L.files library.new ≡ L.files library.old }
    ensures faults { L.faults library.old ≤ L.faults library.new }
    ensures misses { L.misses library.old ≤ L.misses library.new }
    ensures harts { state.new.harts ≡ state.old.harts }
{
    let namespace = caller_in(state, caller);
    let served = link_calls::dlopen(alloc, state, id, namespace, name, flags, folders, library);
    answer_with(state, id, served, MemoryChange::Nothing, 0)
}

/// An opening in the namespace with a number, or in a new one (dlmopen(3)).
pub(crate) fn dlmopen<L: Library>(
    alloc: Global,
    state: &mut LinkState,
    id: HartId,
    namespace: u64,
    name: Option<&[u8]>,
    flags: u64,
    folders: &Names,
    library: &mut L,
) -> Answered
    requires hart { id < state.old.harts }
    requires started { is_startup (after state.old.events) ≡ false }
    requires may_end { MayEndIn state.old id }
    ensures answered { AnswersOver state.old folders.now (L.files library.old) id
        (opens (dlmopen_ask namespace (option_copied name.entry) flags)) result state.new }
    ensures whole { AnswersUnlessReadsFail state.old folders.now (L.files library.old) (L.faults library.old) (L.faults library.new) id
        (dlmopen_ask namespace (option_copied name.entry) flags) result }
    ensures counts { RefusalIsCounted folders.now state.old.events state.new.events id
        (L.faults library.old) (L.faults library.new) (L.misses library.old) (L.misses library.new) }
    ensures unread { NeedsNoRead (after state.old.events) (dlmopen_ask namespace (option_copied name.entry) flags)
        → library.new ≡ library.old }
    ensures files { L.files library.new ≡ L.files library.old }
    ensures faults { L.faults library.old ≤ L.faults library.new }
    ensures misses { L.misses library.old ≤ L.misses library.new }
    ensures harts { state.new.harts ≡ state.old.harts }
{
    let served = link_calls::dlmopen(alloc, state, id, namespace, name, flags, folders, library);
    answer_with(state, id, served, MemoryChange::Nothing, 0)
}
