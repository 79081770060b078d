//! Look-ups.

ghost use Rattle.std.specs.Prelude.{◌≡◌, ◌<◌};
ghost use Rattle.history_state.specs.After.{after};
ghost use Rattle.history_calls.specs.Call.{dlsym, dlvsym};
ghost use Rattle.world_answers.specs.Answers.{AnswersIn, MayEndIn};

use crate::callers::caller_in;
use crate::served::answer_with;
use ld_base::HartId;
use link_state::LinkState;
use std::alloc::Global;
use world_memory::{Answered, MemoryChange};

/// A look-up of a name (dlsym(3)) that returns to an address in its caller.
pub(crate) fn dlsym(
    alloc: Global,
    state: &mut LinkState,
    id: HartId,
    caller: u64,
    handle: u64,
    name: &[u8],
) -> Answered
    requires hart { id < state.old.harts }
    requires may_end { MayEndIn state.old id }
    ensures answered { AnswersIn state.old id (dlsym (after state.old.events) caller handle name.now) result state.new }
    ensures harts { state.new.harts ≡ state.old.harts }
{
    let namespace = caller_in(state, caller);
    let served = link_calls::dlsym(alloc, state, id, namespace, handle, name);
    answer_with(state, id, served, MemoryChange::Made, 0)
}

/// A look-up of a name of a version (dlvsym(3)) that returns to an address in its caller.
pub(crate) fn dlvsym(
    alloc: Global,
    state: &mut LinkState,
    id: HartId,
    caller: u64,
    handle: u64,
    name: &[u8],
    version: &[u8],
) -> Answered
    requires hart { id < state.old.harts }
    requires may_end { MayEndIn state.old id }
    ensures answered { AnswersIn state.old id (dlvsym (after state.old.events) caller handle name.now version.now) result state.new }
    ensures harts { state.new.harts ≡ state.old.harts }
{
    let namespace = caller_in(state, caller);
    let served = link_calls::dlvsym(alloc, state, id, namespace, handle, name, version);
    answer_with(state, id, served, MemoryChange::Made, 0)
}
