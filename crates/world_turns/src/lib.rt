//! Runs on one thread: turns of harts over plain memory, by a written schedule.
//!
//! A [`World`](specs/World.antt) is a journal, guest memory and harts. `Turn` (`specs/Turn.antt`) is one
//! turn of one hart: a line of `hart_moves`'s table, what memory answers, and the journal that grows.
//! `Run` (`specs/Run.antt`) is a whole run: startup, its constructors, the schedule, round robin, the
//! final destructors, and the settling of what is left. `Sound` (`specs/Sound.antt`) holds at each moment
//! of a run: the journal is legal, memory is as it says, and so is how far each hart is with its slot.
//! `ShowInCounts` (`specs/Counts.antt`) says what a library's counts show of the turns that read it.
//!
//! There is no code but laws: functions without a body, whose contract is the law.
//!
//! `schedules` says what a schedule is, `turn_writes` which words a turn changes, `world_ends` and `world_frames` how
//! harts end and what they still run, `running_worlds` what holds while harts run.
#![tactic(auto)]

mod law;
mod running_worlds;
mod schedules;
mod turn_writes;
mod world_ends;
mod world_frames;

pub use law::{
    counts_show, runs_start_sound, runs_stay_sound, slots_are_true, turns_are_due, turns_stay_sound,
};
pub use running_worlds::{runs_go_on, turns_meet_premises};
pub use schedules::{TurnItem, Turns, schedules_are_none, schedules_are_written};
pub use turn_writes::{turns_keep_writes, worlds_keep_writes};
pub use world_ends::{ends_fit, harts_may_end, runs_end_once};
pub use world_frames::{
    finals_belong, finals_may_pass, frames_belong, functions_may_pass, runs_belong,
    settling_keeps_frames,
};
