//! Which opening or closing the functions are of that a hart of a run has still to run.
//!
//! Each frame of a hart is of one opening of that hart, whose new objects it has still to initialise, or
//! of one closing, whose objects it has still to finalise or to unmap (`specs/Belong.antt`). In the final
//! destructors the lowest frame is of the run's end (`specs/Finals.antt`). So the event of the frame's
//! first object may come when its functions have run.
//!
//! There is no code but laws: functions without a body, whose contract is the law.
mod law;

pub use law::{
    finals_belong, finals_may_pass, frames_belong, functions_may_pass, runs_belong,
    settling_keeps_frames,
};
