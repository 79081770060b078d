//! The words of an assembler source: each line's, or the first line that is refused.
//!
//! [`line_words`] judges the lines in order, once it is known what they say of names, where they stand and
//! where sections start ([`Bases`]): either no line has a fault and the answer is each line's words
//! ([`LineWords`]), or the answer is the first line that has one, with its first fault; or there was no
//! memory. The words are those of the table of instructions in `asm_layout`, encoded by `rv_isa`.
//! [`instruction_words`] gives those of an instruction by itself. [`directive_fits`] and [`number_fits`] judge the numbers of statements,
//! [`may_stand`] their sections.
//! What all that means is in `asm_layout`, definitions over the lines.
#![tactic(auto)]

mod atlas;
mod encoding;
mod fits;
mod forms;
mod instructions;
mod known;
mod lines;
mod registers;
mod sections;
mod single;
mod versions;
mod words;

pub use atlas::Bases;
pub use encoding::LineWords;
pub use fits::{directive_fits, number_fits};
pub use sections::may_stand;
pub use single::instruction_words;
pub use words::line_words;
