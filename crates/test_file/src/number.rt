//! Numbers: decimal or hexadecimal, with or without a sign.

/// The number of 64 bits that a word is, if it is one. One below 0 counts modulo 2^64.
pub fn whole(word: &str) -> Option<u64> {
    match word.strip_prefix('-') {
        Some(digits) => Some(natural(digits)?.wrapping_neg()),
        None => natural(word),
    }
}

fn natural(word: &str) -> Option<u64> {
    match word.strip_prefix("0x") {
        Some(digits) => u64::from_str_radix(digits, 16).ok(),
        None => word.parse().ok(),
    }
}
