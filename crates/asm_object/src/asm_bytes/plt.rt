//! The procedure linkage table (psABI, "Program Linkage Table").

ghost use Rattle.std.specs.Prelude.{◌≡◌, ◌≤ℤ◌, ◌-ℤ◌, ◌+◌, ◌*◌, ◌^◌, ◌++◌, pos, neg_ℤ, IfOk, IfSome, OnOk, flat_map};
ghost use Rattle.std.specs.List.{range_with_len};
ghost use Rattle.rv_isa.specs.Encoding.{IsUpper, IsWithin};
ghost use Rattle.asm_layout.specs.Expansions.{upper, lower};
ghost use Rattle.asm_layout.specs.Object.{plt_begin, plt_bytes, instr_bytes, slot_code as code_of_slot};
ghost use Rattle.asm_object.specs.AsmBytes.Words.{word_bytes, begin_words, slot_words, begin_code, slot_code};

use rv_isa::{ImmOp, Instr, LoadOp, Reg, RegOp, encode};
use std::alloc::{AllocError, Global};

/// The two parts of a distance, as two instructions have them.
#[derive(Clone, Copy)]
struct Split {
    /// What the upper twenty bits of a word give.
    upper: i32,
    /// What is left: a signed number of twelve bits.
    lower: i32,
}

impl Split {
    /// Those of a distance; None where it is farther than two instructions reach.
    fn of(distance: i128) -> Option<Self>
        requires low { neg_ℤ (pos (2 ^ 100)) ≤ℤ distance }
        requires high { distance ≤ℤ pos (2 ^ 100) }
        ensures parts { IfSome result (λ split. (split.upper ≡ upper distance) × (split.lower ≡ lower distance)) }
        ensures forms { IfSome result (λ split. IsUpper split.upper × IsWithin 12 split.lower) }
    {
        let shifted = distance + 0x800;
        let rest = shifted.rem_euclid(0x1000);
        let lower = rest as i32 - 0x800;
        match i32::try_from(shifted - rest) {
            Ok(upper) => Some(Split { upper, lower }),
            Err(_) => None,
        }
    }
}

/// The words of the table's begin, which leads so far to the slots' table.
#[tactic(auto, unfolding(crate::specs::AsmBytes::Words::begin_words))]
fn begin_words(distance: i128) -> Option<[u32; 8]>
    requires low { neg_ℤ (pos (2 ^ 100)) ≤ℤ distance }
    requires high { distance ≤ℤ pos (2 ^ 100) }
    ensures { IfSome result (λ words. words ≡ begin_words distance) }
{
    let Split { upper, lower } = Split::of(distance)?;
    let (t0, t1, t2, t3) = (Reg::new(5), Reg::new(6), Reg::new(7), Reg::new(28));
    Some([
        encode(Instr::Auipc(t2, upper)),
        encode(Instr::Op(RegOp::Sub, t1, t1, t3)),
        encode(Instr::Load(LoadOp::Ld, t3, t2, lower)),
        encode(Instr::Imm(ImmOp::Addi, t1, t1, -44)),
        encode(Instr::Imm(ImmOp::Addi, t0, t2, lower)),
        encode(Instr::Imm(ImmOp::Srli, t1, t1, 1)),
        encode(Instr::Load(LoadOp::Ld, t0, t0, 8)),
        encode(Instr::Jalr(Reg::new(0), t3, 0)),
    ])
}

/// The words of a slot's code, which leads so far to the slot's word.
#[tactic(auto, unfolding(crate::specs::AsmBytes::Words::slot_words))]
fn slot_words(distance: i128) -> Option<[u32; 4]>
    requires low { neg_ℤ (pos (2 ^ 100)) ≤ℤ distance }
    requires high { distance ≤ℤ pos (2 ^ 100) }
    ensures { IfSome result (λ words. words ≡ slot_words distance) }
{
    let Split { upper, lower } = Split::of(distance)?;
    let (zero, t1, t3) = (Reg::new(0), Reg::new(6), Reg::new(28));
    Some([
        encode(Instr::Auipc(t3, upper)),
        encode(Instr::Load(LoadOp::Ld, t3, t3, lower)),
        encode(Instr::Jalr(t1, t3, 0)),
        encode(Instr::Imm(ImmOp::Addi, zero, zero, 0)),
    ])
}

/// Appends a word.
#[tactic(auto, unfolding(crate::specs::AsmBytes::Words::word_bytes))]
fn push_word(out: &mut Vec<u8>, word: u32) -> Result<(), AllocError>
    ensures { OnOk result (out.new.items ≡ out.old.items ++ word_bytes word) }
{
    out.extend_from_slice(&word.to_le_bytes())
}

/// Appends words.
fn push_words(out: &mut Vec<u8>, words: &[u32]) -> Result<(), AllocError>
    ensures { OnOk result (out.new.items ≡ out.old.items ++ flat_map word_bytes words.now) }
{
    for word in words {
        push_word(out, *word)?;
    }
    Ok(())
}

/// How far it is from the table's begin to the slots' table.
fn table_distance(plt: u64, got_plt: u64) -> i128
    ensures value { result ≡ pos got_plt -ℤ pos plt }
    ensures low { neg_ℤ (pos (2 ^ 100)) ≤ℤ result }
    ensures high { result ≤ℤ pos (2 ^ 100) }
{
    i128::from(got_plt) - i128::from(plt)
}

/// How far it is from a slot's code to its word.
fn slot_distance(plt: u64, got_plt: u64, slot: usize) -> i128
    ensures value { result ≡ pos (got_plt + 16 + 8 * slot) -ℤ pos (plt + 32 + 16 * slot) }
    ensures low { neg_ℤ (pos (2 ^ 100)) ≤ℤ result }
    ensures high { result ≤ℤ pos (2 ^ 100) }
{
    let word = i128::from(got_plt) + 16 + 8 * slot as i128;
    let code = i128::from(plt) + 32 + 16 * slot as i128;
    word - code
}

/// Appends the code of a slot with a number, in tables that start so.
fn push_numbered(out: &mut Vec<u8>, plt: u64, got_plt: u64, slot: usize) -> Result<(), AllocError>
    ensures { OnOk result (out.new.items ≡ out.old.items ++ slot_code plt got_plt slot) }
{
    match slot_words(slot_distance(plt, got_plt, slot)) {
        Some(words) => push_words(out, &words),
        None => Err(AllocError),
    }
}

/// Appends the code of so many slots.
fn push_slots(out: &mut Vec<u8>, plt: u64, got_plt: u64, slots: usize) -> Result<(), AllocError>
    ensures { OnOk result (out.new.items ≡ out.old.items ++ flat_map (slot_code plt got_plt) (range_with_len 0 slots)) }
{
    for slot in 0..slots {
        push_numbered(out, plt, got_plt, slot)?;
    }
    Ok(())
}

/// Appends the table's begin, in tables that start so.
fn push_begin(out: &mut Vec<u8>, plt: u64, got_plt: u64) -> Result<(), AllocError>
    ensures { OnOk result (out.new.items ≡ out.old.items ++ begin_code plt got_plt) }
{
    match begin_words(table_distance(plt, got_plt)) {
        Some(words) => push_words(out, &words),
        None => Err(AllocError),
    }
}

/// The table of some slots, where it and the slots' table start so.
#[tactic(auto, using(crate::proofs::AsmBytes::Linkage::whole))]
fn table_bytes(alloc: Global, plt: u64, got_plt: u64, slots: usize) -> Result<Vec<u8>, AllocError>
    ensures { IfOk result (λ bytes. bytes.items
        ≡ instr_bytes (plt_begin (pos got_plt -ℤ pos plt)) ++ flat_map (code_of_slot plt got_plt) (range_with_len 0 slots)) }
{
    let mut out = Vec::new(alloc);
    push_begin(&mut out, plt, got_plt)?;
    push_slots(&mut out, plt, got_plt, slots)?;
    Ok(out)
}

/// The procedure linkage table of so many slots, where it and the slots' table start so; none where
/// there is no slot.
///
/// # Errors
///
/// Want of memory, which is told where the tables are 2 GiB apart, too.
#[tactic(auto, unfolding(asm_layout::specs::Object::plt_bytes))]
pub fn plt_bytes(alloc: Global, plt: u64, got_plt: u64, slots: usize) -> Result<Vec<u8>, AllocError>
    ensures { IfOk result (λ bytes. bytes.items ≡ plt_bytes plt got_plt slots) }
{
    if slots > 0 {
        table_bytes(alloc, plt, got_plt, slots)
    } else {
        Ok(Vec::new(alloc))
    }
}
