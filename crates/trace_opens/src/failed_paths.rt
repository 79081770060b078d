//! Where an opening may be refused for a read that fails.
//!
//! A history leaves the reads of a load free: at any path that the load comes to a read may fail. So whether a
//! failed read at a path may refuse an opening is whether the load comes to read that path before anything else
//! stops it. An empty file is refused by the first rule of acceptance; so it is where the same opening, planned
//! over a library in which the file at the path is empty ([`EmptyAt`]), is refused for that file.
//!
//! [`may_fail_at`] says so of an opening by name once startup is over, and [`may_fail_at_start`] of startup's; over
//! told files exactly so.
mod emptied;
mod judging;
mod law;
mod reading;

pub use judging::Doubt;
pub(crate) use reading::{may_fail_at, may_fail_at_start};
