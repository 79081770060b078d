//! What holds of the final destructors, whoever carries them out.

ghost use Rattle.world_answers.specs.ReturnsPart.FinalTurns.Laws.{FinalsGoOn, SettlingKeepsExits, SettlingKeepsOwn, SettlingKeepsPlans};

/// A grant that is settled leaves a planned turn as it is, and its events may come as before.
pub fn settling_keeps_finals()
    ensures plans { SettlingKeepsPlans }
    ensures own { SettlingKeepsOwn }
    ensures exits { SettlingKeepsExits }
{}

/// The events of a turn may come, where that of its object may, and that of the object that is next of all
/// once every hart has ended by exit.
pub fn finals_go_on()
    ensures { FinalsGoOn }
{}
