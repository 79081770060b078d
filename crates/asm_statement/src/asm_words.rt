//! The words of an assembler source: registers, mnemonics, directives, numbers and names.
//!
//! Each call reads one word, or the words between marks, and answers what they stand for, or nothing.
//! The words stand in tables, as in the RISC-V Unprivileged ISA 20191213, chapters 24 and 25, in the
//! RISC-V psABI, and in the RISC-V Assembly Programmer's Manual; what an instruction is in memory is for `rv_isa` to say.
mod directive_words;
mod kinds;
mod law;
mod mnemonics;
mod names;
mod numbers;
mod registers;
mod table;
mod text;

pub use directive_words::{DirectiveWord, LoneWord, NameWord, NumberWord, directive_word};
pub use kinds::{fence_set, hash, kind};
pub use law::each_word_once;
pub use mnemonics::{AddressForm, Form, MemoryForm, RegisterForm, TargetForm, mnemonic};
pub use names::{is_name, name_of};
pub use numbers::number_of;
pub use registers::register;
pub use text::{after_blanks, cut, cut_blank, is_blank, parts_of, trimmed};
