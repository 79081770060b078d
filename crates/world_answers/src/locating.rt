//! Requests of thread-local storage.

ghost use Rattle.std.specs.Prelude.{◌≡◌, ◌<◌};
ghost use Rattle.history_calls.specs.Call.{locates};
ghost use Rattle.world_answers.specs.Answers.{AnswersIn, MayEndIn};
ghost use Rattle.world_answers.specs.Faults.{tls_end};

use crate::ending::end;
use hart_seat::variable_at;
use history_event::HartEnd;
use ld_base::HartId;
use link_state::{LinkState, TlsFault};
use world_memory::{Answered, MemoryChange};

/// Where a variable of the module with a number is in the hart's block (`__tls_get_addr`).
pub(crate) fn locate(state: &mut LinkState, id: HartId, number: u64, offset: u64) -> Answered
    requires hart { id < state.old.harts }
    requires may_end { MayEndIn state.old id }
    ensures answered { AnswersIn state.old id (locates number offset) result state.new }
    ensures harts { state.new.harts ≡ state.old.harts }
{
    match state.tls_block(id, number) {
        Ok(block) => Answered::Returns(variable_at(block, offset), MemoryChange::Made),
        Err(fault) => end(state, id, tls_end(fault)),
    }
}

/// As what a hart ends that has no block.
pub fn tls_end(fault: TlsFault) -> HartEnd
    ensures { result ≡ tls_end fault }
{
    match fault {
        TlsFault::BadModule(number) => HartEnd::BadModule(number),
        TlsFault::NoRoom(pages) => HartEnd::AddressSpaceFull(pages),
        TlsFault::Memory => HartEnd::Memory,
    }
}
