//! Instructions and what they compute.

use rv_hart::{Access, Answer, Hart, complete, plan};
use rv_isa::{Instr, Reg, RegOp, decode, encode};
use std::alloc::Global;
use test_file::{Fault, Words, show};

/// The instruction of a word, which is encoded as that word again.
pub fn instruction(alloc: Global, words: &mut Words) -> Result<String, Fault> {
    let word = words.number32()?;
    let Some(instr) = decode(word) else {
        return Ok(String::from_str(alloc, "none")?);
    };
    let encoded = encode(instr);
    if encoded == word {
        show(alloc, instr)
    } else {
        Ok(format!(in alloc; "{instr:?}, which is encoded as {encoded:#x}")?)
    }
}

/// The operations on two registers, by their mnemonics.
const OPERATIONS: [(&str, RegOp); 28] = [
    ("add", RegOp::Add),
    ("sll", RegOp::Sll),
    ("slt", RegOp::Slt),
    ("sltu", RegOp::Sltu),
    ("xor", RegOp::Xor),
    ("srl", RegOp::Srl),
    ("or", RegOp::Or),
    ("and", RegOp::And),
    ("sub", RegOp::Sub),
    ("sra", RegOp::Sra),
    ("mul", RegOp::Mul),
    ("mulh", RegOp::Mulh),
    ("mulhsu", RegOp::Mulhsu),
    ("mulhu", RegOp::Mulhu),
    ("div", RegOp::Div),
    ("divu", RegOp::Divu),
    ("rem", RegOp::Rem),
    ("remu", RegOp::Remu),
    ("addw", RegOp::Addw),
    ("sllw", RegOp::Sllw),
    ("srlw", RegOp::Srlw),
    ("subw", RegOp::Subw),
    ("sraw", RegOp::Sraw),
    ("mulw", RegOp::Mulw),
    ("divw", RegOp::Divw),
    ("divuw", RegOp::Divuw),
    ("remw", RegOp::Remw),
    ("remuw", RegOp::Remuw),
];

fn operation(mnemonic: &str) -> Result<RegOp, Fault> {
    for (name, op) in OPERATIONS {
        if name == mnemonic {
            return Ok(op);
        }
    }
    Err(Fault::Unclear)
}

/// What an operation on two registers gives, as a hart computes it.
pub fn computed(alloc: Global, words: &mut Words) -> Result<String, Fault> {
    let op = operation(words.text()?)?;
    let mut hart = Hart::new(0, 0, 0, 0);
    hart.x[11] = words.number()?;
    hart.x[12] = words.number()?;
    let instr = Instr::Op(op, Reg::new(10), Reg::new(11), Reg::new(12));
    let action = plan(&hart, encode(instr));
    if action.access != Access::Nothing {
        return Err(Fault::Unclear);
    }
    complete(&mut hart, action, Answer::Nothing);
    show(alloc, hart.x[10])
}
