//! The versions of a source's object: laws.
//!
//! - [`versions_lead_on`]: each record of them leads to the next one.
mod law;

pub use law::versions_lead_on;
