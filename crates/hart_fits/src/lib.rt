//! What holds of one hart of a run, whatever the other harts do.
//!
//! The linker needs a few facts of a hart that it serves: that the functions which the hart has still to
//! run are of its own openings and closings, that it may end, and how much it may write. They are facts
//! about the journal and this hart alone: [`harts_fit`] says that events of other harts leave them, and
//! that the hart's own moves do. In the final destructors, where no other hart runs, [`finals_fit`] has the
//! same of the first hart. A hart that waits for an object knows that it was shown it ([`waits_stay`]).
//!
//! There is no code but laws: functions without a body, whose contract is the law.
#![tactic(auto)]

mod law;

pub use law::{
    events_have_owners, finals_fit, harts_fit, others_leave_frames, own_moves_fit, own_moves_keep,
    running_is_not_over, waits_stay,
};
