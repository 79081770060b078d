//! Which harts of a run on one thread have ended: its journal and its harts say the same.
//!
//! Before the final destructors each end of the journal is that of one hart, and each hart that has
//! ended stands there once; in them every other hart has ended by exit, and the first one runs them until
//! it ends again (`specs/Ends.antt`). So a hart that runs may always end, and at the end of a run whose
//! harts ended by exit and once each, no object is left that was initialised and not finalised.
//!
//! There is no code but laws: functions without a body, whose contract is the law.
mod law;

pub use law::{ends_fit, harts_may_end, runs_end_once};
