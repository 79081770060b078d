//! What a run may do over files that are told it may do where no files are told.
//!
//! A library that tells its files says at which path which bytes are; one that tells none leaves open what
//! is found. `untold` (`specs/Untold.antt`) is a run's setting without its files. So whoever keeps a run
//! over several calls knows it as one of a library that tells nothing, whatever each call's library told.
//!
//! There is no code but laws: functions without a body, whose contract is the law.
mod law;

pub use law::files_only_narrow;
