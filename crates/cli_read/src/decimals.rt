//! Numbers as they are written in decimal: without a sign, and without a zero before them.
ghost use Rattle.std.specs.Prelude.{◌≡◌, ℕ, ◌<◌, ◌^◌, IfSome, Some};
ghost use Rattle.std.specs.Fmt.{decimal};

use itoa::Buffer;
use std::str;

/// The number of 64 bits that a text is, if it is one.
pub fn decimal_number(text: &[u8]) -> Option<u64>
    ensures is { IfSome result (λ n. text.now ≡ decimal n) }
    ensures every { (n : ℕ) → n < 2 ^ 64 → text.now ≡ decimal n → result ≡ Some n }
{
    let text = str::from_utf8(text).ok()?;
    let number = text.parse::<u64>().ok()?;
    (Buffer::new().format(number) == text).then_some(number)
}
