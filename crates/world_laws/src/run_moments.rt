//! What is true of each world that turns of the harts lead to from a start, in whichever order
//! (`specs/RunMoments/True.antt`), and so at each moment of a run: of its journal (`OfJournal.antt`), of the
//! words of guest memory (`OfWords.antt`), and of whichever turn comes next (`OfTurns.antt`).
//!
//! There is no code but laws: functions without a body, whose contract is the law.
mod law;

pub use law::{
    closings_come_to_return, grants_are_made_by_turns, journals_are_true, moments_are_true,
    turns_are_true, worlds_are_true,
};
