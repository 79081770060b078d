//! What holds of whole runs on one thread.
//!
//! A turn, a step and a run have one outcome; slots keep what they were bound to; a run that has ended is
//! whole, and its journal is its harts'; each hart follows to its end; and what is true of each world that
//! turns lead to (`specs/RunMoments/True.antt`). There is no code but laws: functions without a body, whose
//! contract is the law.
#![tactic(auto)]

mod hart_ways;
mod run_journals;
mod run_moments;
mod run_once;
mod step_once;
mod turn_once;
mod world_slots;
mod world_whole;

pub use hart_ways::harts_follow;
pub use run_journals::runs_have_journals;
pub use run_moments::{
    closings_come_to_return, grants_are_made_by_turns, journals_are_true, moments_are_true,
    turns_are_true, worlds_are_true,
};
pub use run_once::runs_are_one;
pub use step_once::steps_are_one;
pub use turn_once::turns_are_one;
pub use world_slots::{later_worlds_keep_slots, turns_keep_slots};
pub use world_whole::runs_are_whole;
