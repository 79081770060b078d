//! What a run leaves.

ghost use Rattle.std.specs.Prelude.{◌≡◌, ◌≤◌, [], length, Some, IsTrue};
ghost use Rattle.std.specs.List.{list_all};
ghost use Rattle.std.specs.Vec.{vec_capacity};
ghost use Rattle.world_answers.specs.ReturnsPart.Settling.{harts_in};
ghost use Rattle.plain_world.specs.Ends.{AreEndsOf};
ghost use Rattle.world_turns.specs.Run.{has_ended, have_ended};

use crate::World;
use hart_seat::LinkedHart;
use history_event::{Ends, HartEnd};
use trace_text::RunRecord;

impl World {
    /// What a run leaves each of whose harts has ended.
    pub fn into_record(self) -> RunRecord
        requires over { IsTrue (have_ended self.world) }
        ensures journal { result.journal.events ≡ self.world.journal }
        ensures ends { AreEndsOf self.world.harts result.ends }
    {
        let World {
            state,
            harts,
            ends,
            ..
        } = self;
        let ends = ends_of(ends, harts.as_slice());
        RunRecord::new(state.into_journal(), ends)
    }
}

/// How each of these harts has ended. There is room for that.
fn ends_of(room: Vec<HartEnd>, harts: &[LinkedHart]) -> Ends
    requires empty { room.items ≡ [] }
    requires room { length harts.now ≤ vec_capacity room }
    requires over { IsTrue (list_all has_ended (harts_in harts.now)) }
    ensures { AreEndsOf (harts_in harts.now) result }
{
    let mut ends = room;
    for hart in harts {
        ends.push_reserved(end_of(hart));
    }
    Ends::from(ends)
}

/// How a hart has ended.
fn end_of(hart: &LinkedHart) -> HartEnd
    requires { IsTrue (has_ended hart.now.hart) }
    ensures { hart.now.hart.«end» ≡ Some result }
{
    match hart.end() {
        Some(reason) => reason,
        None => unreachable!(),
    }
}
