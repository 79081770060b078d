//! What a hart gets of what came of its call of a dl function.

ghost use Rattle.std.specs.Prelude.{◌≡◌, ◌<◌};
ghost use Rattle.history_calls.specs.declared.link_served.served.Served.TheVariants.{Memory};
ghost use Rattle.world_answers.specs.Answers.{MayEndIn};
ghost use Rattle.world_answers.specs.Served.{answer_with, noted};

use crate::ending::end;
use history_calls::Served;
use history_event::HartEnd;
use ld_base::{HartId, Serial};
use link_state::LinkState;
use world_memory::{Answered, MemoryChange};

/// What the hart gets of what came of its call. Where that is a value, memory gets this change, and a call
/// that is refused returns with this value. Where memory is wanted the hart ends, which is noted.
pub(crate) fn answer_with(
    state: &mut LinkState,
    id: HartId,
    served: Served,
    change: MemoryChange,
    refused: u64,
) -> Answered
    requires hart { id < state.old.harts }
    requires may_end { served ≡ Memory → MayEndIn state.old id }
    ensures answer { result ≡ answer_with change refused served }
    ensures noted { state.new ≡ noted state.old id served }
{
    match served {
        Served::Done(value) => Answered::Returns(value, change),
        Served::Opened(root, installs, functions) => {
            Answered::Loading(Serial::new(root), installs, functions)
        }
        Served::Closing(dying, functions) => Answered::Closing(dying, functions),
        Served::Refused(_) => Answered::Returns(refused, MemoryChange::Nothing),
        Served::Again(shown) => Answered::Again(shown),
        Served::Memory => end(state, id, HartEnd::Memory),
    }
}
