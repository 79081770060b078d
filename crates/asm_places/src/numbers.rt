//! Which numbers fit where.

ghost use Rattle.std.specs.Prelude.{◌≡◌, ◌<◌};
ghost use Rattle.asm_layout.specs.Numbers.{value_of, fits, fits_data, fits_dword, fits_addend, fits_count, count_of};
ghost use Rattle.asm_layout.specs.Numbers.{fits_li, fits_upper, fits_addi};

use asm_statement::{DataSize, Number};

/// The number that is written; None where it is beyond what any place takes.
pub fn value_of(number: Number) -> Option<i128>
    ensures { result ≡ value_of number }
{
    let magnitude = i128::from(number.magnitude?);
    if number.is_negative {
        Some(-magnitude)
    } else {
        Some(magnitude)
    }
}

/// Whether the number lies between these, both included.
fn fits(least: i128, greatest: i128, number: Number) -> bool
    ensures { result ≡ fits least greatest number }
{
    match value_of(number) {
        Some(value) => least <= value && value <= greatest,
        None => false,
    }
}

/// Whether the number fits into so many bytes, with a sign or without one.
pub fn fits_data(size: DataSize, number: Number) -> bool
    ensures { result ≡ fits_data size number }
{
    match size {
        DataSize::Word => fits(-(1 << 31), (1 << 32) - 1, number),
        DataSize::Half => fits(-(1 << 15), (1 << 16) - 1, number),
        DataSize::Byte => fits(-(1 << 7), (1 << 8) - 1, number),
    }
}

/// Whether the number fits into eight bytes, with a sign or without one.
pub fn fits_dword(number: Number) -> bool
    ensures { result ≡ fits_dword number }
{
    fits(-(1 << 63), (1 << 64) - 1, number)
}

/// Whether the number is a distance from a name.
pub fn fits_addend(number: Number) -> bool
    ensures { result ≡ fits_addend number }
{
    fits(-(1 << 63), (1 << 63) - 1, number)
}

/// Whether the number is one of bytes that are reserved.
pub fn fits_count(number: Number) -> bool
    ensures { result ≡ fits_count number }
{
    fits(0, (1 << 32) - 1, number)
}

/// How many bytes the number reserves: none where it is none of bytes.
pub fn count_of(number: Number) -> u64
    ensures { result ≡ count_of number }
{
    if fits_count(number) {
        number.magnitude.unwrap_or(0)
    } else {
        0
    }
}

/// Whether `li` takes the number.
pub fn fits_li(number: Number) -> bool
    ensures { result ≡ fits_li number }
{
    fits(-(1 << 31), (1 << 31) - 1, number)
}

/// Whether `lui` and `auipc` take the number.
pub fn fits_upper(number: Number) -> bool
    ensures { result ≡ fits_upper number }
{
    fits(0, (1 << 20) - 1, number)
}

/// Whether one `addi` holds the number.
pub fn fits_addi(number: Number) -> bool
    ensures { result ≡ fits_addi number }
{
    fits(-(1 << 11), (1 << 11) - 1, number)
}
