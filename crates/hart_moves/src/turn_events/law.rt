//! What holds of the events of every turn.

ghost use Rattle.hart_moves.specs.TurnEvents.Laws.{FinalsStay, FinalsStayAway, TurnsAppend};

/// Each turn appends events that neither unmap objects nor end its hart, or one unmapping, or its hart's
/// end behind such events; or it ends the hart without an event, by the last of the final destructors. No
/// turn begins these, and none leaves them but with its hart's end.
pub fn turns_append()
    ensures events { TurnsAppend }
    ensures no_finals { FinalsStayAway }
    ensures finals { FinalsStay }
{}
