//! How the harts of a run have ended.

ghost use Rattle.std.specs.Prelude.{◌≡◌, ◌<◌, ◌≤◌, [], ◌∷◌, All, IsSome, Some, drop, length, map};
ghost use Rattle.std.specs.Vec.{vec_capacity};

use hart_linker::RunNaming;
use hart_seat::LinkedHart;
use hart_threads::HartRun;
use history_event::{Ends, HartEnd};

/// How each hart has ended: the first one so, and each other as it says. There is room for that.
pub(crate) fn ends_of<J: RunNaming>(room: Vec<HartEnd>, first: HartEnd, runs: &[HartRun<J>]) -> Ends
    requires some { 0 < length runs.now }
    requires empty { room.items ≡ [] }
    requires room { length runs.now ≤ vec_capacity room }
    requires over { All (λ run. IsSome run.hart.hart.«end») (drop 1 runs.now) }
    ensures { map Some result ≡ Some first ∷ map (λ run. run.hart.hart.«end») (drop 1 runs.now) }
{
    let mut ends = room;
    ends.push_reserved(first);
    for run in &runs[1..] {
        ends.push_reserved(end_of(&run.hart));
    }
    Ends::from(ends)
}

/// How a hart has ended.
fn end_of(hart: &LinkedHart) -> HartEnd
    requires { IsSome hart.now.hart.«end» }
    ensures { hart.now.hart.«end» ≡ Some result }
{
    hart.end().unwrap()
}
