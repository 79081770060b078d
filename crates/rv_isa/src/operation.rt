//! What the instructions of one form do, one variant a mnemonic, and their codes.

ghost use Rattle.std.specs.Prelude.{◌≡◌, ◌<◌, ◌^◌};
ghost use Rattle.rv_isa.specs.Opcodes.{branch_code, load_code, store_code, imm_code, reg_code, amo_code};

/// A condition on which a branch is taken.
#[derive(Clone, Copy, Debug, PartialEq, Eq)]
pub enum BranchOp {
    Beq,
    Bne,
    Blt,
    Bge,
    Bltu,
    Bgeu,
}

/// A load: its size, and whether its value is sign-extended.
#[derive(Clone, Copy, Debug, PartialEq, Eq)]
pub enum LoadOp {
    Lb,
    Lh,
    Lw,
    Ld,
    Lbu,
    Lhu,
    Lwu,
}

/// A store, by its size.
#[derive(Clone, Copy, Debug, PartialEq, Eq)]
pub enum StoreOp {
    Sb,
    Sh,
    Sw,
    Sd,
}

/// Arithmetic of a register and an immediate.
#[derive(Clone, Copy, Debug, PartialEq, Eq)]
pub enum ImmOp {
    Addi,
    Slti,
    Sltiu,
    Xori,
    Ori,
    Andi,
    Slli,
    Srli,
    Srai,
    Addiw,
    Slliw,
    Srliw,
    Sraiw,
}

/// Arithmetic of two registers.
#[derive(Clone, Copy, Debug, PartialEq, Eq)]
pub enum RegOp {
    Add,
    Sll,
    Slt,
    Sltu,
    Xor,
    Srl,
    Or,
    And,
    Sub,
    Sra,
    Mul,
    Mulh,
    Mulhsu,
    Mulhu,
    Div,
    Divu,
    Rem,
    Remu,
    Addw,
    Sllw,
    Srlw,
    Subw,
    Sraw,
    Mulw,
    Divw,
    Divuw,
    Remw,
    Remuw,
}

/// What an atomic memory operation makes of a word in memory and a register.
#[derive(Clone, Copy, Debug, PartialEq, Eq)]
pub enum AmoOp {
    Add,
    Swap,
    Xor,
    Or,
    And,
    Min,
    Max,
    Minu,
    Maxu,
}

impl BranchOp {
    /// The code of the mnemonic.
    pub(crate) fn code(self) -> u32
        ensures value { result ≡ branch_code self }
        ensures bound { result < 2 ^ 3 }
    {
        match self {
            BranchOp::Beq => 0,
            BranchOp::Bne => 1,
            BranchOp::Blt => 4,
            BranchOp::Bge => 5,
            BranchOp::Bltu => 6,
            BranchOp::Bgeu => 7,
        }
    }
}

impl LoadOp {
    /// The code of the mnemonic.
    pub(crate) fn code(self) -> u32
        ensures value { result ≡ load_code self }
        ensures bound { result < 2 ^ 3 }
    {
        match self {
            LoadOp::Lb => 0,
            LoadOp::Lh => 1,
            LoadOp::Lw => 2,
            LoadOp::Ld => 3,
            LoadOp::Lbu => 4,
            LoadOp::Lhu => 5,
            LoadOp::Lwu => 6,
        }
    }
}

impl StoreOp {
    /// The code of the mnemonic.
    pub(crate) fn code(self) -> u32
        ensures value { result ≡ store_code self }
        ensures bound { result < 2 ^ 3 }
    {
        match self {
            StoreOp::Sb => 0,
            StoreOp::Sh => 1,
            StoreOp::Sw => 2,
            StoreOp::Sd => 3,
        }
    }
}

impl AmoOp {
    /// The code of the mnemonic.
    pub(crate) fn code(self) -> u32
        ensures value { result ≡ amo_code self }
        ensures bound { result < 2 ^ 5 }
    {
        match self {
            AmoOp::Add => 0,
            AmoOp::Swap => 1,
            AmoOp::Xor => 4,
            AmoOp::Or => 8,
            AmoOp::And => 12,
            AmoOp::Min => 16,
            AmoOp::Max => 20,
            AmoOp::Minu => 24,
            AmoOp::Maxu => 28,
        }
    }
}

impl ImmOp {
    /// The opcode and the funct3 of the mnemonic.
    pub(crate) fn code(self) -> (u32, u32)
        ensures value { let code = imm_code self in result ≡ (code.0, code.1) }
        ensures bound { (result.0 < 2 ^ 7) × (result.1 < 2 ^ 3) }
    {
        match self {
            ImmOp::Addi => (0x13, 0),
            ImmOp::Slti => (0x13, 2),
            ImmOp::Sltiu => (0x13, 3),
            ImmOp::Xori => (0x13, 4),
            ImmOp::Ori => (0x13, 6),
            ImmOp::Andi => (0x13, 7),
            ImmOp::Slli => (0x13, 1),
            ImmOp::Srli | ImmOp::Srai => (0x13, 5),
            ImmOp::Addiw => (0x1b, 0),
            ImmOp::Slliw => (0x1b, 1),
            ImmOp::Srliw | ImmOp::Sraiw => (0x1b, 5),
        }
    }
}

impl RegOp {
    /// The opcode, the funct7 and the funct3 of the mnemonic.
    pub(crate) fn code(self) -> (u32, u32, u32)
        ensures value { result ≡ reg_code self }
        ensures bound { (result.0 < 2 ^ 7) × (result.1 < 2 ^ 7) × (result.2 < 2 ^ 3) }
    {
        match self {
            RegOp::Add => (0x33, 0, 0),
            RegOp::Sll => (0x33, 0, 1),
            RegOp::Slt => (0x33, 0, 2),
            RegOp::Sltu => (0x33, 0, 3),
            RegOp::Xor => (0x33, 0, 4),
            RegOp::Srl => (0x33, 0, 5),
            RegOp::Or => (0x33, 0, 6),
            RegOp::And => (0x33, 0, 7),
            RegOp::Sub => (0x33, 0x20, 0),
            RegOp::Sra => (0x33, 0x20, 5),
            RegOp::Mul => (0x33, 1, 0),
            RegOp::Mulh => (0x33, 1, 1),
            RegOp::Mulhsu => (0x33, 1, 2),
            RegOp::Mulhu => (0x33, 1, 3),
            RegOp::Div => (0x33, 1, 4),
            RegOp::Divu => (0x33, 1, 5),
            RegOp::Rem => (0x33, 1, 6),
            RegOp::Remu => (0x33, 1, 7),
            RegOp::Addw => (0x3b, 0, 0),
            RegOp::Sllw => (0x3b, 0, 1),
            RegOp::Srlw => (0x3b, 0, 5),
            RegOp::Subw => (0x3b, 0x20, 0),
            RegOp::Sraw => (0x3b, 0x20, 5),
            RegOp::Mulw => (0x3b, 1, 0),
            RegOp::Divw => (0x3b, 1, 4),
            RegOp::Divuw => (0x3b, 1, 5),
            RegOp::Remw => (0x3b, 1, 6),
            RegOp::Remuw => (0x3b, 1, 7),
        }
    }
}
