//! The fields of a word and the immediates that they make (Unprivileged ISA 20191213, sections 2.2
//! and 2.3).

ghost use Rattle.std.specs.Prelude.{◌≡◌, ◌+◌, ◌-◌, ◌<◌, ◌≤◌, ◌^◌};
ghost use Rattle.rv_isa.specs.Word.{bits, signed};
ghost use Rattle.rv_isa.specs.Reading.{i_number, s_number, b_number, u_number, j_number};

use crate::Reg;

/// The number in the bits from `low` on, `width` of them.
#[inline]
#[tactic(auto, using(crate::proofs::Fields::field_is), unfolding(crate::specs::Word::bits))]
pub fn field(word: u32, low: u32, width: u32) -> u32
    requires inside { low + width ≤ 32 }
    requires below { low < 32 }
    requires narrow { width < 32 }
    ensures value { result ≡ bits low width word }
    ensures bound { result < 2 ^ width }
{
    (word >> low) & ((1 << width) - 1)
}

/// The register in the five bits from `low` on.
#[inline]
pub fn register(word: u32, low: u32) -> Reg
    requires { low + 5 ≤ 32 }
    ensures { result ≡ bits low 5 word }
{
    Reg::new(field(word, low, 5) as u8)
}

/// The signed number that the low `width` bits are in two's complement.
#[inline]
pub fn signed(number: u32, width: u32) -> i32
    requires wide { 1 ≤ width }
    requires narrow { width < 31 }
    requires bound { number < 2 ^ width }
    ensures { result ≡ signed width number }
{
    if number < 1 << (width - 1) {
        number as i32
    } else {
        number as i32 - (1 << width)
    }
}

/// The immediate of an I-form word.
#[inline]
#[tactic(auto, unfolding(crate::specs::Reading::i_number))]
pub fn i_number(word: u32) -> i32
    ensures { result ≡ i_number word }
{
    signed(field(word, 20, 12), 12)
}

/// The immediate of an S-form word.
#[inline]
#[tactic(auto, unfolding(crate::specs::Reading::s_number))]
pub fn s_number(word: u32) -> i32
    ensures { result ≡ s_number word }
{
    signed(field(word, 7, 5) + (field(word, 25, 7) << 5), 12)
}

/// The immediate of a B-form word.
#[inline]
#[tactic(auto, unfolding(crate::specs::Reading::b_number))]
pub fn b_number(word: u32) -> i32
    ensures { result ≡ b_number word }
{
    let low = (field(word, 8, 4) << 1) + (field(word, 25, 6) << 5);
    signed(
        low + (field(word, 7, 1) << 11) + (field(word, 31, 1) << 12),
        13,
    )
}

/// The immediate of a U-form word.
#[inline]
#[tactic(auto, unfolding(crate::specs::Reading::u_number))]
pub fn u_number(word: u32) -> i32
    ensures { result ≡ u_number word }
{
    (field(word, 12, 20) << 12).cast_signed()
}

/// The immediate of a J-form word.
#[inline]
#[tactic(auto, unfolding(crate::specs::Reading::j_number))]
pub fn j_number(word: u32) -> i32
    ensures { result ≡ j_number word }
{
    let low = (field(word, 21, 10) << 1) + (field(word, 20, 1) << 11);
    signed(
        low + (field(word, 12, 8) << 12) + (field(word, 31, 1) << 20),
        21,
    )
}
