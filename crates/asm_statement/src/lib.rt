//! The statements of an assembler source: what a line says once its operands are read.
//!
//! A source is a list of [`Line`]s. Each may define a label, and may have one [`Statement`]: a
//! [`Directive`], one variant a meaning, or an [`Instruction`], one variant a form of operands and a
//! meaning. Operands are registers, numbers as they are written, and names. Where labels are and which
//! numbers fit is for those who place the code.
//!
//! Instructions are those of the RISC-V Unprivileged ISA 20191213, chapters 24 and 25, and the ones
//! that stand for a name's address in the RISC-V Assembly Programmer's Manual.
//!
//! `asm_words` has what the words of a source stand for: registers, mnemonics, directives, numbers, names.
#![tactic(auto)]

mod alignment;
mod asm_words;
mod directive;
mod fault;
mod instruction;
mod line;
mod number;

pub use alignment::Alignment;
pub use asm_words::{
    AddressForm, DirectiveWord, Form, LoneWord, MemoryForm, NameWord, NumberWord, RegisterForm,
    TargetForm, after_blanks, cut, cut_blank, directive_word, each_word_once, fence_set, hash,
    is_blank, is_name, kind, mnemonic, name_of, number_of, parts_of, register, trimmed,
};
pub use directive::{
    Array, DataSize, Directive, Doubleword, Export, HashKind, Need, ObjectKind, Section, Symver,
};
pub use fault::AsmFault;
pub use instruction::{
    Access, AddressOp, Fence, FenceSet, Instruction, PlainOp, UpperOp, Width, ZeroBranchOp,
};
pub use line::{Line, Statement, Statements};
pub use number::Number;
