//! The journal of a run is its harts': startup's events, and then events of harts that there are and that
//! run, among which a count of ends by exit is one of each hart.
//!
//! There is no code but a law: a function without a body, whose contract is the law.
mod law;

pub use law::runs_have_journals;
