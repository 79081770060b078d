//! Numbers.

ghost use Rattle.std.specs.Prelude.{◌≡◌, ◌≤◌, Some, option_map};
ghost use Rattle.asm_statement.specs.AsmWords.Number.{digit, digit_below, number_in, unsigned, kept, number};
ghost use Rattle.asm_statement.specs.AsmWords.Magnitude.{after_digit, magnitude};

use crate::Number;

fn digit(byte: u8) -> Option<u8>
    ensures { result ≡ digit byte }
{
    match byte {
        b'0'..=b'9' => Some(byte - b'0'),
        b'a'..=b'f' => Some(byte - b'a' + 10),
        b'A'..=b'F' => Some(byte - b'A' + 10),
        _ => None,
    }
}

#[tactic(auto, unfolding(crate::specs::AsmWords::Number::digit_below))]
fn digit_below(base: u8, byte: u8) -> Option<u64>
    ensures { result ≡ digit_below base byte }
{
    let value = digit(byte)?;
    (value < base).then_some(u64::from(value))
}

fn after_digit(value: Option<u64>, base: u8, digit: u64) -> Option<u64>
    ensures { result ≡ after_digit value base digit }
{
    value?.checked_mul(u64::from(base))?.checked_add(digit)
}

fn magnitude_of_digits(base: u8, digits: &[u8]) -> Option<Option<u64>>
    ensures { result ≡ magnitude base (Some 0) digits.now }
{
    let mut value = Some(0);
    let mut rest = digits;
    while let [byte, others @ ..] = rest {
        value = after_digit(value, base, digit_below(base, *byte)?);
        rest = others;
    }
    Some(value)
}

/// The magnitude of a number whose digits these are, where it is one.
#[tactic(auto, using(crate::proofs::AsmWords::Magnitude::of_digits))]
fn magnitude(base: u8, digits: &[u8]) -> Option<Option<u64>>
    requires { 1 ≤ base }
    ensures { result ≡ option_map kept (number_in base digits.now) }
{
    if digits.is_empty() {
        None
    } else {
        magnitude_of_digits(base, digits)
    }
}

fn unsigned(text: &[u8]) -> Option<Option<u64>>
    ensures { result ≡ option_map kept (unsigned text.now) }
{
    match text {
        [b'0', b'x', digits @ ..] => magnitude(16, digits),
        _ => magnitude(10, text),
    }
}

fn signed(is_negative: bool, digits: &[u8]) -> Option<Number>
    ensures { result ≡ option_map (λ value. record { is_negative = is_negative; magnitude = kept value }) (unsigned digits.now) }
{
    let magnitude = unsigned(digits)?;
    Some(Number {
        is_negative,
        magnitude,
    })
}

/// The number that is written so.
#[tactic(auto, unfolding(crate::specs::AsmWords::Number::number))]
pub fn number_of(text: &[u8]) -> Option<Number>
    ensures { result ≡ number text.now }
{
    match text {
        [b'-', digits @ ..] => signed(true, digits),
        _ => signed(false, text),
    }
}
