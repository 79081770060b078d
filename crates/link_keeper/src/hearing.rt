//! Harts are told of events.

ghost use Rattle.std.specs.Prelude.{◌≡◌, false};
ghost use Rattle.hart_linker.specs.Between.{HasHeard, Hears};
ghost use Rattle.word_rule.specs.Views.{IsLane, NoneAbove, known_of, readings_of, row_of};
ghost use Rattle.link_keeper.specs.Keeping.{KeepsView};

use hart_linker::RunNaming;
use kept_words::entries_are_events;
use word_memory::{HartSeat, KeeperSeat, Memory, tell};

/// Tells a hart of all events, none of which that it hadn't heard of is its own.
pub(crate) fn hear<J: RunNaming>(
    memory: &Memory<J>,
    keeper: &mut KeeperSeat<J>,
    seat: &mut HartSeat<J>,
)
    requires keeps { KeepsView J.setting J.journal keeper.old }
    requires heard { HasHeard J.setting J.journal seat.old }
    requires calling { seat.old.lane.calling ≡ false }
    ensures hears { Hears J.setting J.journal seat.old seat.new }
    ensures all { seat.new.heard ≡ keeper.old.events }
    ensures keeper { keeper.new ≡ keeper.old }
    ensures issued { known_of seat.old.lane ≡ (row_of keeper.old seat.old.number).issued }
    ensures lane { IsLane seat.old.lane }
    ensures read { NoneAbove keeper.old.generation (readings_of seat.old.trail) }
{
    entries_are_events();
    let _ = seat.number();
    tell(memory, keeper, seat);
}
