//! Mnemonics.

ghost use Rattle.std.specs.Prelude.{◌≡◌};
ghost use Rattle.asm_statement.specs.AsmWords.Mnemonics.{word_form, atomic_part, access, atomic_form, pointed_form, mnemonic};

use crate::asm_words::table::named;
use crate::asm_words::text::cut;
use crate::{Access, AddressOp, PlainOp, UpperOp, Width, ZeroBranchOp};
use rv_isa::{AmoOp, BranchOp, ImmOp, LoadOp, RegOp, StoreOp};

/// An instruction whose operand is a name.
#[derive(Clone, Copy)]
pub enum TargetForm {
    Jump,
    Call,
    Tail,
}

/// An instruction whose operands are a register and a name.
#[derive(Clone, Copy)]
pub enum AddressForm {
    Jal,
    BranchZero(ZeroBranchOp),
    Address(AddressOp),
}

/// An instruction that reaches memory, with a register in parentheses among its operands.
#[derive(Clone, Copy)]
pub enum MemoryForm {
    Load(LoadOp),
    Store(StoreOp),
    Amo(AmoOp, Access),
    Lr(Access),
    Sc(Access),
}

/// An instruction of registers and numbers.
#[derive(Clone, Copy)]
pub enum RegisterForm {
    Plain(PlainOp),
    Upper(UpperOp),
    Li,
    Imm(ImmOp),
    Op(RegOp),
    Jalr,
    Mv,
    Jr,
    Fence,
}

/// What a mnemonic's instruction does, by the form of its operands.
#[derive(Clone, Copy)]
pub enum Form {
    Target(TargetForm),
    Address(AddressForm),
    /// Two registers and a name.
    Branch(BranchOp),
    Memory(MemoryForm),
    Register(RegisterForm),
}

/// What an atomic instruction does.
#[derive(Clone, Copy)]
enum Atomic {
    Lr,
    Sc,
    Amo(AmoOp),
}

const FORMS: [(&[u8], Form); 79] = [
    (
        b"ecall",
        Form::Register(RegisterForm::Plain(PlainOp::Ecall)),
    ),
    (
        b"ebreak",
        Form::Register(RegisterForm::Plain(PlainOp::Ebreak)),
    ),
    (b"nop", Form::Register(RegisterForm::Plain(PlainOp::Nop))),
    (b"ret", Form::Register(RegisterForm::Plain(PlainOp::Ret))),
    (b"j", Form::Target(TargetForm::Jump)),
    (b"call", Form::Target(TargetForm::Call)),
    (b"tail", Form::Target(TargetForm::Tail)),
    (b"lui", Form::Register(RegisterForm::Upper(UpperOp::Lui))),
    (
        b"auipc",
        Form::Register(RegisterForm::Upper(UpperOp::Auipc)),
    ),
    (b"li", Form::Register(RegisterForm::Li)),
    (b"jal", Form::Address(AddressForm::Jal)),
    (
        b"beqz",
        Form::Address(AddressForm::BranchZero(ZeroBranchOp::Beqz)),
    ),
    (
        b"bnez",
        Form::Address(AddressForm::BranchZero(ZeroBranchOp::Bnez)),
    ),
    (b"la", Form::Address(AddressForm::Address(AddressOp::La))),
    (b"lga", Form::Address(AddressForm::Address(AddressOp::Lga))),
    (
        b"la.tls.gd",
        Form::Address(AddressForm::Address(AddressOp::LaTlsGd)),
    ),
    (
        b"la.tls.ie",
        Form::Address(AddressForm::Address(AddressOp::LaTlsIe)),
    ),
    (b"jalr", Form::Register(RegisterForm::Jalr)),
    (b"mv", Form::Register(RegisterForm::Mv)),
    (b"jr", Form::Register(RegisterForm::Jr)),
    (b"fence", Form::Register(RegisterForm::Fence)),
    (b"beq", Form::Branch(BranchOp::Beq)),
    (b"bne", Form::Branch(BranchOp::Bne)),
    (b"blt", Form::Branch(BranchOp::Blt)),
    (b"bge", Form::Branch(BranchOp::Bge)),
    (b"bltu", Form::Branch(BranchOp::Bltu)),
    (b"bgeu", Form::Branch(BranchOp::Bgeu)),
    (b"lb", Form::Memory(MemoryForm::Load(LoadOp::Lb))),
    (b"lh", Form::Memory(MemoryForm::Load(LoadOp::Lh))),
    (b"lw", Form::Memory(MemoryForm::Load(LoadOp::Lw))),
    (b"ld", Form::Memory(MemoryForm::Load(LoadOp::Ld))),
    (b"lbu", Form::Memory(MemoryForm::Load(LoadOp::Lbu))),
    (b"lhu", Form::Memory(MemoryForm::Load(LoadOp::Lhu))),
    (b"lwu", Form::Memory(MemoryForm::Load(LoadOp::Lwu))),
    (b"sb", Form::Memory(MemoryForm::Store(StoreOp::Sb))),
    (b"sh", Form::Memory(MemoryForm::Store(StoreOp::Sh))),
    (b"sw", Form::Memory(MemoryForm::Store(StoreOp::Sw))),
    (b"sd", Form::Memory(MemoryForm::Store(StoreOp::Sd))),
    (b"addi", Form::Register(RegisterForm::Imm(ImmOp::Addi))),
    (b"slti", Form::Register(RegisterForm::Imm(ImmOp::Slti))),
    (b"sltiu", Form::Register(RegisterForm::Imm(ImmOp::Sltiu))),
    (b"xori", Form::Register(RegisterForm::Imm(ImmOp::Xori))),
    (b"ori", Form::Register(RegisterForm::Imm(ImmOp::Ori))),
    (b"andi", Form::Register(RegisterForm::Imm(ImmOp::Andi))),
    (b"slli", Form::Register(RegisterForm::Imm(ImmOp::Slli))),
    (b"srli", Form::Register(RegisterForm::Imm(ImmOp::Srli))),
    (b"srai", Form::Register(RegisterForm::Imm(ImmOp::Srai))),
    (b"addiw", Form::Register(RegisterForm::Imm(ImmOp::Addiw))),
    (b"slliw", Form::Register(RegisterForm::Imm(ImmOp::Slliw))),
    (b"srliw", Form::Register(RegisterForm::Imm(ImmOp::Srliw))),
    (b"sraiw", Form::Register(RegisterForm::Imm(ImmOp::Sraiw))),
    (b"add", Form::Register(RegisterForm::Op(RegOp::Add))),
    (b"sub", Form::Register(RegisterForm::Op(RegOp::Sub))),
    (b"sll", Form::Register(RegisterForm::Op(RegOp::Sll))),
    (b"slt", Form::Register(RegisterForm::Op(RegOp::Slt))),
    (b"sltu", Form::Register(RegisterForm::Op(RegOp::Sltu))),
    (b"xor", Form::Register(RegisterForm::Op(RegOp::Xor))),
    (b"srl", Form::Register(RegisterForm::Op(RegOp::Srl))),
    (b"sra", Form::Register(RegisterForm::Op(RegOp::Sra))),
    (b"or", Form::Register(RegisterForm::Op(RegOp::Or))),
    (b"and", Form::Register(RegisterForm::Op(RegOp::And))),
    (b"mul", Form::Register(RegisterForm::Op(RegOp::Mul))),
    (b"mulh", Form::Register(RegisterForm::Op(RegOp::Mulh))),
    (b"mulhsu", Form::Register(RegisterForm::Op(RegOp::Mulhsu))),
    (b"mulhu", Form::Register(RegisterForm::Op(RegOp::Mulhu))),
    (b"div", Form::Register(RegisterForm::Op(RegOp::Div))),
    (b"divu", Form::Register(RegisterForm::Op(RegOp::Divu))),
    (b"rem", Form::Register(RegisterForm::Op(RegOp::Rem))),
    (b"remu", Form::Register(RegisterForm::Op(RegOp::Remu))),
    (b"addw", Form::Register(RegisterForm::Op(RegOp::Addw))),
    (b"subw", Form::Register(RegisterForm::Op(RegOp::Subw))),
    (b"sllw", Form::Register(RegisterForm::Op(RegOp::Sllw))),
    (b"srlw", Form::Register(RegisterForm::Op(RegOp::Srlw))),
    (b"sraw", Form::Register(RegisterForm::Op(RegOp::Sraw))),
    (b"mulw", Form::Register(RegisterForm::Op(RegOp::Mulw))),
    (b"divw", Form::Register(RegisterForm::Op(RegOp::Divw))),
    (b"divuw", Form::Register(RegisterForm::Op(RegOp::Divuw))),
    (b"remw", Form::Register(RegisterForm::Op(RegOp::Remw))),
    (b"remuw", Form::Register(RegisterForm::Op(RegOp::Remuw))),
];

const ATOMICS: [(&[u8], Atomic); 11] = [
    (b"lr", Atomic::Lr),
    (b"sc", Atomic::Sc),
    (b"amoadd", Atomic::Amo(AmoOp::Add)),
    (b"amoswap", Atomic::Amo(AmoOp::Swap)),
    (b"amoxor", Atomic::Amo(AmoOp::Xor)),
    (b"amoor", Atomic::Amo(AmoOp::Or)),
    (b"amoand", Atomic::Amo(AmoOp::And)),
    (b"amomin", Atomic::Amo(AmoOp::Min)),
    (b"amomax", Atomic::Amo(AmoOp::Max)),
    (b"amominu", Atomic::Amo(AmoOp::Minu)),
    (b"amomaxu", Atomic::Amo(AmoOp::Maxu)),
];

/// The width of what is reached, whether it acquires, and whether it releases.
const ACCESSES: [(&[u8], (Width, bool, bool)); 8] = [
    (b"w", (Width::Word, false, false)),
    (b"d", (Width::Doubleword, false, false)),
    (b"w.aq", (Width::Word, true, false)),
    (b"d.aq", (Width::Doubleword, true, false)),
    (b"w.rl", (Width::Word, false, true)),
    (b"d.rl", (Width::Doubleword, false, true)),
    (b"w.aqrl", (Width::Word, true, true)),
    (b"d.aqrl", (Width::Doubleword, true, true)),
];

/// A mnemonic of one word.
#[tactic(auto, unfolding(crate::specs::AsmWords::Mnemonics::word_form))]
fn word_form(word: &[u8]) -> Option<Form>
    ensures { result ≡ word_form word.now }
{
    named(&FORMS, word)
}

/// What an atomic instruction does.
#[tactic(auto, unfolding(crate::specs::AsmWords::Mnemonics::atomic_part))]
fn atomic_part(word: &[u8]) -> Option<Atomic>
    ensures { result ≡ atomic_part word.now }
{
    named(&ATOMICS, word)
}

/// How it reaches memory.
#[tactic(auto, unfolding(crate::specs::AsmWords::Mnemonics::access))]
fn access(word: &[u8]) -> Option<Access>
    ensures { result ≡ access word.now }
{
    let (width, aq, rl) = named(&ACCESSES, word)?;
    Some(Access { width, aq, rl })
}

fn atomic_form(atomic: Atomic, access: Access) -> MemoryForm
    ensures { result ≡ atomic_form atomic access }
{
    match atomic {
        Atomic::Lr => MemoryForm::Lr(access),
        Atomic::Sc => MemoryForm::Sc(access),
        Atomic::Amo(op) => MemoryForm::Amo(op, access),
    }
}

#[tactic(auto, unfolding(crate::specs::AsmWords::Mnemonics::pointed_form))]
fn pointed_form(word: &[u8]) -> Option<Form>
    ensures { result ≡ pointed_form word.now }
{
    let (what, how) = cut(word, b'.')?;
    let form = atomic_form(atomic_part(what)?, access(how)?);
    Some(Form::Memory(form))
}

/// What a mnemonic says.
#[tactic(auto, unfolding(crate::specs::AsmWords::Mnemonics::mnemonic))]
pub fn mnemonic(word: &[u8]) -> Option<Form>
    ensures { result ≡ mnemonic word.now }
{
    word_form(word).or(pointed_form(word))
}
