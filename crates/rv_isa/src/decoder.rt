//! The instruction of a word.

ghost use Rattle.std.specs.Prelude.{◌≡◌, ◌<◌, Option};
ghost use Rattle.rv_isa.specs.Word.{bits};
ghost use Rattle.rv_isa.specs.Opcodes.{imm_code};
ghost use Rattle.rv_isa.specs.Encoding.{Decodes};
ghost use Rattle.rv_isa.specs.Reading.{branch_of, load_of, store_of, amo_of, reg_of, imm_of, number_of, size_of, atomic_of, load_of_word};
ghost use Rattle.rv_isa.specs.Reading.{store_of_word, branch_of_word, imm_of_word, reg_of_word, with_opcode};

use crate::field::{b_number, field, i_number, j_number, register, s_number, u_number};
use crate::{AmoOp, BranchOp, ImmOp, Instr, LoadOp, Reg, RegOp, StoreOp};

fn rd(word: u32) -> Reg
    ensures { result ≡ bits 7 5 word }
{
    register(word, 7)
}

fn rs1(word: u32) -> Reg
    ensures { result ≡ bits 15 5 word }
{
    register(word, 15)
}

fn rs2(word: u32) -> Reg
    ensures { result ≡ bits 20 5 word }
{
    register(word, 20)
}

fn funct3(word: u32) -> u32
    ensures { result ≡ bits 12 3 word }
{
    field(word, 12, 3)
}

fn funct7(word: u32) -> u32
    ensures { result ≡ bits 25 7 word }
{
    field(word, 25, 7)
}

fn branch_op(code: u32) -> Option<BranchOp>
    ensures { result ≡ branch_of code }
{
    match code {
        0 => Some(BranchOp::Beq),
        1 => Some(BranchOp::Bne),
        4 => Some(BranchOp::Blt),
        5 => Some(BranchOp::Bge),
        6 => Some(BranchOp::Bltu),
        7 => Some(BranchOp::Bgeu),
        _ => None,
    }
}

fn load_op(code: u32) -> Option<LoadOp>
    ensures { result ≡ load_of code }
{
    match code {
        0 => Some(LoadOp::Lb),
        1 => Some(LoadOp::Lh),
        2 => Some(LoadOp::Lw),
        3 => Some(LoadOp::Ld),
        4 => Some(LoadOp::Lbu),
        5 => Some(LoadOp::Lhu),
        6 => Some(LoadOp::Lwu),
        _ => None,
    }
}

fn store_op(code: u32) -> Option<StoreOp>
    ensures { result ≡ store_of code }
{
    match code {
        0 => Some(StoreOp::Sb),
        1 => Some(StoreOp::Sh),
        2 => Some(StoreOp::Sw),
        3 => Some(StoreOp::Sd),
        _ => None,
    }
}

fn amo_op(code: u32) -> Option<AmoOp>
    ensures { result ≡ amo_of code }
{
    match code {
        0 => Some(AmoOp::Add),
        1 => Some(AmoOp::Swap),
        4 => Some(AmoOp::Xor),
        8 => Some(AmoOp::Or),
        12 => Some(AmoOp::And),
        16 => Some(AmoOp::Min),
        20 => Some(AmoOp::Max),
        24 => Some(AmoOp::Minu),
        28 => Some(AmoOp::Maxu),
        _ => None,
    }
}

fn base_op(code: u32) -> Option<RegOp>
    ensures { result ≡ reg_of 0x33 0 code }
{
    match code {
        0 => Some(RegOp::Add),
        1 => Some(RegOp::Sll),
        2 => Some(RegOp::Slt),
        3 => Some(RegOp::Sltu),
        4 => Some(RegOp::Xor),
        5 => Some(RegOp::Srl),
        6 => Some(RegOp::Or),
        7 => Some(RegOp::And),
        _ => None,
    }
}

fn multiply_op(code: u32) -> Option<RegOp>
    ensures { result ≡ reg_of 0x33 1 code }
{
    match code {
        0 => Some(RegOp::Mul),
        1 => Some(RegOp::Mulh),
        2 => Some(RegOp::Mulhsu),
        3 => Some(RegOp::Mulhu),
        4 => Some(RegOp::Div),
        5 => Some(RegOp::Divu),
        6 => Some(RegOp::Rem),
        7 => Some(RegOp::Remu),
        _ => None,
    }
}

fn alternate_op(code: u32) -> Option<RegOp>
    ensures { result ≡ reg_of 0x33 0x20 code }
{
    match code {
        0 => Some(RegOp::Sub),
        5 => Some(RegOp::Sra),
        _ => None,
    }
}

fn reg_op(funct7: u32, funct3: u32) -> Option<RegOp>
    ensures { result ≡ reg_of 0x33 funct7 funct3 }
{
    match funct7 {
        0 => base_op(funct3),
        1 => multiply_op(funct3),
        0x20 => alternate_op(funct3),
        _ => None,
    }
}

fn base_word_op(code: u32) -> Option<RegOp>
    ensures { result ≡ reg_of 0x3b 0 code }
{
    match code {
        0 => Some(RegOp::Addw),
        1 => Some(RegOp::Sllw),
        5 => Some(RegOp::Srlw),
        _ => None,
    }
}

fn multiply_word_op(code: u32) -> Option<RegOp>
    ensures { result ≡ reg_of 0x3b 1 code }
{
    match code {
        0 => Some(RegOp::Mulw),
        4 => Some(RegOp::Divw),
        5 => Some(RegOp::Divuw),
        6 => Some(RegOp::Remw),
        7 => Some(RegOp::Remuw),
        _ => None,
    }
}

fn alternate_word_op(code: u32) -> Option<RegOp>
    ensures { result ≡ reg_of 0x3b 0x20 code }
{
    match code {
        0 => Some(RegOp::Subw),
        5 => Some(RegOp::Sraw),
        _ => None,
    }
}

fn reg_word_op(funct7: u32, funct3: u32) -> Option<RegOp>
    ensures { result ≡ reg_of 0x3b funct7 funct3 }
{
    match funct7 {
        0 => base_word_op(funct3),
        1 => multiply_word_op(funct3),
        0x20 => alternate_word_op(funct3),
        _ => None,
    }
}

fn imm_op(word: u32) -> Option<ImmOp>
    ensures { result ≡ imm_of 0x13 (bits 12 3 word) word }
{
    match (funct3(word), field(word, 26, 6)) {
        (0, _) => Some(ImmOp::Addi),
        (1, 0) => Some(ImmOp::Slli),
        (2, _) => Some(ImmOp::Slti),
        (3, _) => Some(ImmOp::Sltiu),
        (4, _) => Some(ImmOp::Xori),
        (5, 0) => Some(ImmOp::Srli),
        (5, 0x10) => Some(ImmOp::Srai),
        (6, _) => Some(ImmOp::Ori),
        (7, _) => Some(ImmOp::Andi),
        _ => None,
    }
}

fn imm_word_op(word: u32) -> Option<ImmOp>
    ensures { result ≡ imm_of 0x1b (bits 12 3 word) word }
{
    match (funct3(word), funct7(word)) {
        (0, _) => Some(ImmOp::Addiw),
        (1, 0) => Some(ImmOp::Slliw),
        (5, 0) => Some(ImmOp::Srliw),
        (5, 0x20) => Some(ImmOp::Sraiw),
        _ => None,
    }
}

fn number(op: ImmOp, word: u32) -> i32
    ensures { let code = imm_code op in result ≡ number_of code.2 word }
{
    match op {
        ImmOp::Slli | ImmOp::Srli | ImmOp::Srai => field(word, 20, 6) as i32,
        ImmOp::Slliw | ImmOp::Srliw | ImmOp::Sraiw => field(word, 20, 5) as i32,
        ImmOp::Addi | ImmOp::Slti | ImmOp::Sltiu | ImmOp::Addiw => i_number(word),
        ImmOp::Xori | ImmOp::Ori | ImmOp::Andi => i_number(word),
    }
}

fn access_size(code: u32) -> Option<u8>
    ensures { result ≡ size_of code }
{
    match code {
        2 => Some(4),
        3 => Some(8),
        _ => None,
    }
}

#[tactic(auto, unfolding(crate::specs::Reading::atomic_of))]
fn atomic(word: u32, size: u8) -> Option<Instr>
    ensures { result ≡ atomic_of word size }
{
    let aq = field(word, 26, 1) == 1;
    let rl = field(word, 25, 1) == 1;
    match field(word, 27, 5) {
        2 if field(word, 20, 5) == 0 => Some(Instr::Lr(size, rd(word), rs1(word), aq, rl)),
        2 => None,
        3 => Some(Instr::Sc(size, rd(word), rs1(word), rs2(word), aq, rl)),
        code => amo_op(code).map(|op| Instr::Amo(op, size, rd(word), rs1(word), rs2(word), aq, rl)),
    }
}

fn load(word: u32) -> Option<Instr>
    ensures { result ≡ load_of_word word }
{
    load_op(funct3(word)).map(|op| Instr::Load(op, rd(word), rs1(word), i_number(word)))
}

fn store(word: u32) -> Option<Instr>
    ensures { result ≡ store_of_word word }
{
    store_op(funct3(word)).map(|op| Instr::Store(op, rs1(word), rs2(word), s_number(word)))
}

fn branch(word: u32) -> Option<Instr>
    ensures { result ≡ branch_of_word word }
{
    branch_op(funct3(word)).map(|op| Instr::Branch(op, rs1(word), rs2(word), b_number(word)))
}

fn immediate(word: u32) -> Option<Instr>
    ensures { result ≡ imm_of_word 0x13 word }
{
    imm_op(word).map(|op| Instr::Imm(op, rd(word), rs1(word), number(op, word)))
}

fn word_immediate(word: u32) -> Option<Instr>
    ensures { result ≡ imm_of_word 0x1b word }
{
    imm_word_op(word).map(|op| Instr::Imm(op, rd(word), rs1(word), number(op, word)))
}

fn registers(word: u32) -> Option<Instr>
    ensures { result ≡ reg_of_word 0x33 word }
{
    let op = reg_op(funct7(word), funct3(word));
    op.map(|op| Instr::Op(op, rd(word), rs1(word), rs2(word)))
}

fn word_registers(word: u32) -> Option<Instr>
    ensures { result ≡ reg_of_word 0x3b word }
{
    let op = reg_word_op(funct7(word), funct3(word));
    op.map(|op| Instr::Op(op, rd(word), rs1(word), rs2(word)))
}

#[tactic(auto, unfolding(crate::specs::Reading::with_opcode))]
fn by_opcode(opcode: u32, word: u32) -> Option<Instr>
    ensures { result ≡ with_opcode opcode word }
{
    match opcode {
        0x03 => load(word),
        0x0f if funct3(word) == 0 => Some(Instr::Fence(word)),
        0x13 => immediate(word),
        0x17 => Some(Instr::Auipc(rd(word), u_number(word))),
        0x1b => word_immediate(word),
        0x23 => store(word),
        0x2f => access_size(funct3(word)).and_then(|size| atomic(word, size)),
        0x33 => registers(word),
        0x37 => Some(Instr::Lui(rd(word), u_number(word))),
        0x3b => word_registers(word),
        0x63 => branch(word),
        0x67 if funct3(word) == 0 => Some(Instr::Jalr(rd(word), rs1(word), i_number(word))),
        0x6f => Some(Instr::Jal(rd(word), j_number(word))),
        0x73 if word == 0x0000_0073 => Some(Instr::Ecall),
        0x73 if word == 0x0010_0073 => Some(Instr::Ebreak),
        _ => None,
    }
}

/// The instruction of a word, or None where the word is that of no instruction.
#[tactic(auto, using(crate::proofs::Inverse::decodes))]
pub fn decode(word: u32) -> Option<Instr>
    ensures { Decodes word result }
{
    by_opcode(field(word, 0, 7), word)
}
