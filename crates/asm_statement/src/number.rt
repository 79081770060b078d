//! Numbers.

/// A number as it is written.
#[derive(Clone, Copy, PartialEq, Eq)]
pub struct Number {
    /// Whether a minus sign stands before it; it may stand before 0, too.
    pub is_negative: bool,
    /// What follows the sign, or None where that is 2^64 or more.
    pub magnitude: Option<u64>,
}
