//! Runs on one thread.
//!
//! A [`World`] has the linker's state, guest memory, and the harts. [`World::start`] starts one up to its first
//! constructor; [`World::turn`] takes one turn of a hart; [`World::run`] takes it to its end by a written schedule:
//! startup's constructors, the items of the schedule, the harts in order until all have ended, the final
//! destructors, and the settling of what is left; [`World::into_record`] gives what it leaves. `specs/Run.antt`
//! of world_turns is the definition.
#![tactic(auto)]

mod finals;
mod harts;
mod law;
mod record;
mod run;
mod starting;
mod stretch;
mod turn;
mod world;

pub use law::played_worlds_are_runs;
pub use world::World;
