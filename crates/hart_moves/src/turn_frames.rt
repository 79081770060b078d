//! What one turn of a hart makes of the functions that the linker has it run.
//!
//! A hart's frames are what the linker has it run: constructors of an opening, destructors of a closing or
//! of the run's end. `LeavesFrames` (`specs/Leaves.antt`) says of each turn which frame it begins, goes on
//! with or ends, and which objects its events initialise, finalise and unmap.
//!
//! There is no code but laws: functions without a body, whose contract is the law.
mod law;

pub use law::{closings_unmap_first, turns_leave_frames};
