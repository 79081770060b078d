//! What holds of whole ways.

ghost use Rattle.hart_threads.specs.Laws.{OthersRunWhole, RestIsNobodys, WaysStay, WaysStayBehind};

use hart_trails::trails_grow;

/// The way of a hart that isn't the first is whole when it ends; and whole ways stay so over a longer
/// journal of which nothing more is theirs, and over events of nobody, which those are that stand behind the
/// last event of each hart.
pub fn ways_are_whole()
    ensures others { OthersRunWhole }
    ensures stay { WaysStay }
    ensures behind { WaysStayBehind }
    ensures rest { RestIsNobodys }
{
    trails_grow();
}
