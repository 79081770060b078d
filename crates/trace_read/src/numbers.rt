//! Numbers.

ghost use Rattle.std.specs.Prelude.{◌≡◌, ◌<◌, ◌^◌, IfSome, codes, option_map};
ghost use Rattle.trace_read.specs.Pieces.{before, labelled};
ghost use Rattle.trace_read.specs.Numbers.{digit_value, digit, continued, numeral, decimal_in, hexadecimal_in, definition};

use crate::pieces::{behind, cut};

fn digit_value(byte: u8) -> Option<u8>
    ensures { result ≡ digit_value byte }
{
    match byte {
        b'0'..=b'9' => Some(byte - b'0'),
        b'a'..=b'f' => Some(byte - b'a' + 10),
        _ => None,
    }
}

/// The value of a digit of a base, in lower case.
#[tactic(auto, unfolding(crate::specs::Numbers::digit))]
pub(crate) fn digit(base: u8, byte: u8) -> Option<u8>
    ensures value { result ≡ digit base byte }
    ensures bound { IfSome result (λ d. d < base) }
{
    let value = digit_value(byte)?;
    (value < base).then_some(value)
}

fn continued(base: u8, digits: &[u8]) -> Option<u64>
    ensures { result ≡ continued base 0 digits.now }
{
    let mut value: u64 = 0;
    let mut rest = digits;
    while let [byte, others @ ..] = rest {
        let digit = digit(base, *byte)?;
        value = value
            .checked_mul(u64::from(base))?
            .checked_add(u64::from(digit))?;
        rest = others;
    }
    Some(value)
}

#[tactic(auto, unfolding(crate::specs::Numbers::numeral))]
fn numeral(base: u8, text: &[u8]) -> Option<u64>
    ensures { result ≡ numeral base text.now }
{
    match text {
        [] | [b'0', _, ..] => None,
        [byte] => Some(u64::from(digit(base, *byte)?)),
        digits => continued(base, digits),
    }
}

/// A decimal number of 64 bits.
pub(crate) fn decimal(text: &[u8]) -> Option<u64>
    ensures { result ≡ numeral 10 text.now }
{
    numeral(10, text)
}

/// A decimal number of 32 bits.
pub(crate) fn decimal32(text: &[u8]) -> Option<u32>
    ensures { result ≡ decimal_in (2 ^ 32) text.now }
{
    u32::try_from(decimal(text)?).ok()
}

/// A decimal number of 8 bits.
pub(crate) fn decimal8(text: &[u8]) -> Option<u8>
    ensures { result ≡ decimal_in (2 ^ 8) text.now }
{
    u8::try_from(decimal(text)?).ok()
}

/// A hexadecimal number of 64 bits.
pub(crate) fn hexadecimal(text: &[u8]) -> Option<u64>
    ensures { result ≡ labelled (numeral 16) (codes "0x") text.now }
{
    numeral(16, behind(text, b"0x")?)
}

/// A hexadecimal number of 32 bits.
pub(crate) fn hexadecimal32(text: &[u8]) -> Option<u32>
    ensures { result ≡ hexadecimal_in (2 ^ 32) text.now }
{
    u32::try_from(hexadecimal(text)?).ok()
}

/// A word with a label and a decimal number of 64 bits, and what stands behind its blank.
pub(crate) fn decimal_field<'a>(text: &'a [u8], label: &[u8]) -> Option<(u64, &'a [u8])>
    ensures { option_map (λ p. (p.0, p.1.now)) result ≡ before 32 (labelled (numeral 10) label.now) text.now }
{
    let (word, rest) = cut(text, b' ')?;
    Some((decimal(behind(word, label)?)?, rest))
}

/// A word with a label and a decimal number of 32 bits, and what stands behind its blank.
pub(crate) fn decimal32_field<'a>(text: &'a [u8], label: &[u8]) -> Option<(u32, &'a [u8])>
    ensures { option_map (λ p. (p.0, p.1.now)) result ≡ before 32 (labelled (decimal_in (2 ^ 32)) label.now) text.now }
{
    let (word, rest) = cut(text, b' ')?;
    Some((decimal32(behind(word, label)?)?, rest))
}

/// A word with a label and a hexadecimal number of 64 bits, and what stands behind its blank.
pub(crate) fn hexadecimal_field<'a>(text: &'a [u8], label: &[u8]) -> Option<(u64, &'a [u8])>
    ensures { option_map (λ p. (p.0, p.1.now)) result ≡ before 32 (labelled (labelled (numeral 16) (codes "0x")) label.now) text.now }
{
    let (word, rest) = cut(text, b' ')?;
    Some((hexadecimal(behind(word, label)?)?, rest))
}

/// A definition: the serial of the object, and the index of its symbol.
pub(crate) fn definition(text: &[u8]) -> Option<(u64, u32)>
    ensures { result ≡ definition text.now }
{
    let (object, index) = cut(text, b'.')?;
    let object = decimal(object)?;
    Some((object, decimal32(index)?))
}
