//! The block that is kept of a module.

use ld_base::Serial;

/// A block of a module, with the object that the module was of.
#[derive(Clone, Copy, PartialEq, Eq)]
pub struct Entry {
    /// The module's number.
    pub number: u64,
    pub serial: Serial,
    pub block: u64,
}
