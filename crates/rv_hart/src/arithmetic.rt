//! What the integer instructions compute.

ghost use Rattle.std.specs.Prelude.{◌≡◌, ◌*◌, ◌<◌, ◌^◌};
ghost use Rattle.std.specs.Int.{w32, w64, cast_signed, cast_unsigned};
ghost use Rattle.rv_hart.specs.Arithmetic.{low_bytes, widened, upper_half, word_result, low_word, quotient, remainder, unsigned_quotient};
ghost use Rattle.rv_hart.specs.Arithmetic.{unsigned_remainder, reg_result, with_registers, imm_result, combined};
ghost use Rattle.rv_hart.specs.Buses.{IsSize};
ghost use Rattle.rv_isa.specs.Encoding.{IsAtomicSize};

use rv_isa::{AmoOp, ImmOp, RegOp};

/// The lowest `size` bytes of a register.
pub(crate) fn low_bytes(size: u8, value: u64) -> u64
    requires { IsSize size }
    ensures value { result ≡ low_bytes size value }
    ensures bound { result < 2 ^ (8 * size) }
{
    match size {
        1 => value & 0xff,
        2 => value & 0xffff,
        4 => value & 0xffff_ffff,
        _ => value,
    }
}

// The low half of a register.
fn low_word(a: u64) -> u32
    ensures { result ≡ low_word a }
{
    (a & 0xffff_ffff) as u32
}

// The register whose low half is this, sign-extended.
fn extended(a: u32) -> u64
    ensures { result ≡ cast_unsigned w64 (cast_signed w32 a) }
{
    i64::from(a.cast_signed()).cast_unsigned()
}

fn word_result(a: u64) -> u64
    ensures { result ≡ word_result a }
{
    extended(low_word(a))
}

// A number sign-extended to 128 bits.
fn widened(a: u64) -> u128
    ensures { result ≡ widened a }
{
    i128::from(a.cast_signed()).cast_unsigned()
}

// The upper half of a product.
fn upper_half(a: u128, b: u128) -> u64
    ensures { result ≡ upper_half (a * b) }
{
    (a.wrapping_mul(b) >> 64) as u64
}

fn quotient(a: u64, b: u64) -> u64
    ensures { result ≡ quotient w64 a b }
{
    if b == 0 {
        u64::MAX
    } else {
        a.cast_signed()
            .wrapping_div(b.cast_signed())
            .cast_unsigned()
    }
}

fn remainder(a: u64, b: u64) -> u64
    ensures { result ≡ remainder w64 a b }
{
    if b == 0 {
        a
    } else {
        a.cast_signed()
            .wrapping_rem(b.cast_signed())
            .cast_unsigned()
    }
}

fn unsigned_quotient(a: u64, b: u64) -> u64
    ensures { result ≡ unsigned_quotient w64 a b }
{
    if b == 0 { u64::MAX } else { a / b }
}

fn unsigned_remainder(a: u64, b: u64) -> u64
    ensures { result ≡ unsigned_remainder a b }
{
    if b == 0 { a } else { a % b }
}

fn word_quotient(a: u32, b: u32) -> u32
    ensures { result ≡ quotient w32 a b }
{
    if b == 0 {
        u32::MAX
    } else {
        a.cast_signed()
            .wrapping_div(b.cast_signed())
            .cast_unsigned()
    }
}

fn word_remainder(a: u32, b: u32) -> u32
    ensures { result ≡ remainder w32 a b }
{
    if b == 0 {
        a
    } else {
        a.cast_signed()
            .wrapping_rem(b.cast_signed())
            .cast_unsigned()
    }
}

fn unsigned_word_quotient(a: u32, b: u32) -> u32
    ensures { result ≡ unsigned_quotient w32 a b }
{
    if b == 0 { u32::MAX } else { a / b }
}

fn unsigned_word_remainder(a: u32, b: u32) -> u32
    ensures { result ≡ unsigned_remainder a b }
{
    if b == 0 { a } else { a % b }
}

/// What arithmetic with two registers puts into rd.
#[inline]
pub fn reg_result(op: RegOp, a: u64, b: u64) -> u64
    ensures { result ≡ reg_result op a b }
{
    match op {
        RegOp::Add => a.wrapping_add(b),
        RegOp::Sub => a.wrapping_sub(b),
        RegOp::Sll => a << (b & 63),
        RegOp::Srl => a >> (b & 63),
        RegOp::Sra => (a.cast_signed() >> (b & 63)).cast_unsigned(),
        RegOp::Slt => u64::from(a.cast_signed() < b.cast_signed()),
        RegOp::Sltu => u64::from(a < b),
        RegOp::Xor => a ^ b,
        RegOp::Or => a | b,
        RegOp::And => a & b,
        RegOp::Mul => a.wrapping_mul(b),
        RegOp::Mulh => upper_half(widened(a), widened(b)),
        RegOp::Mulhsu => upper_half(widened(a), u128::from(b)),
        RegOp::Mulhu => upper_half(u128::from(a), u128::from(b)),
        RegOp::Div => quotient(a, b),
        RegOp::Divu => unsigned_quotient(a, b),
        RegOp::Rem => remainder(a, b),
        RegOp::Remu => unsigned_remainder(a, b),
        RegOp::Addw => word_result(a.wrapping_add(b)),
        RegOp::Subw => word_result(a.wrapping_sub(b)),
        RegOp::Sllw => word_result(a << (b & 31)),
        RegOp::Srlw => extended(low_word(a) >> (b & 31)),
        RegOp::Sraw => i64::from(low_word(a).cast_signed() >> (b & 31)).cast_unsigned(),
        RegOp::Mulw => word_result(a.wrapping_mul(b)),
        RegOp::Divw => extended(word_quotient(low_word(a), low_word(b))),
        RegOp::Divuw => extended(unsigned_word_quotient(low_word(a), low_word(b))),
        RegOp::Remw => extended(word_remainder(low_word(a), low_word(b))),
        RegOp::Remuw => extended(unsigned_word_remainder(low_word(a), low_word(b))),
    }
}

fn with_registers(op: ImmOp) -> RegOp
    ensures { result ≡ with_registers op }
{
    match op {
        ImmOp::Addi => RegOp::Add,
        ImmOp::Slti => RegOp::Slt,
        ImmOp::Sltiu => RegOp::Sltu,
        ImmOp::Xori => RegOp::Xor,
        ImmOp::Ori => RegOp::Or,
        ImmOp::Andi => RegOp::And,
        ImmOp::Slli => RegOp::Sll,
        ImmOp::Srli => RegOp::Srl,
        ImmOp::Srai => RegOp::Sra,
        ImmOp::Addiw => RegOp::Addw,
        ImmOp::Slliw => RegOp::Sllw,
        ImmOp::Srliw => RegOp::Srlw,
        ImmOp::Sraiw => RegOp::Sraw,
    }
}

/// What arithmetic with a register and an immediate puts into rd.
#[inline]
pub fn imm_result(op: ImmOp, a: u64, number: i32) -> u64
    ensures { result ≡ imm_result op a number }
{
    reg_result(with_registers(op), a, i64::from(number).cast_unsigned())
}

fn combined_double(op: AmoOp, old: u64, value: u64) -> u64
    ensures { result ≡ combined op 8 old value }
{
    match op {
        AmoOp::Add => old.wrapping_add(value),
        AmoOp::Swap => value,
        AmoOp::Xor => old ^ value,
        AmoOp::Or => old | value,
        AmoOp::And => old & value,
        AmoOp::Min if value.cast_signed() < old.cast_signed() => value,
        AmoOp::Max if old.cast_signed() < value.cast_signed() => value,
        AmoOp::Min | AmoOp::Max => old,
        AmoOp::Minu => value.min(old),
        AmoOp::Maxu => old.max(value),
    }
}

fn combined_word(op: AmoOp, old: u32, value: u32) -> u32
    ensures { result ≡ combined op 4 old value }
{
    match op {
        AmoOp::Add => old.wrapping_add(value),
        AmoOp::Swap => value,
        AmoOp::Xor => old ^ value,
        AmoOp::Or => old | value,
        AmoOp::And => old & value,
        AmoOp::Min if value.cast_signed() < old.cast_signed() => value,
        AmoOp::Max if old.cast_signed() < value.cast_signed() => value,
        AmoOp::Min | AmoOp::Max => old,
        AmoOp::Minu => value.min(old),
        AmoOp::Maxu => old.max(value),
    }
}

/// What an atomic memory operation stores, from the old value and the register's, both of `size`
/// bytes.
pub fn combined(op: AmoOp, size: u8, old: u64, value: u64) -> u64
    requires size { IsAtomicSize size }
    requires old { old < 2 ^ (8 * size) }
    requires value { value < 2 ^ (8 * size) }
    ensures value { result ≡ combined op size old value }
    ensures bound { result < 2 ^ (8 * size) }
{
    if size == 4 {
        u64::from(combined_word(op, old as u32, value as u32))
    } else {
        combined_double(op, old, value)
    }
}
