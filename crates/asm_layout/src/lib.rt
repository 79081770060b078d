//! What a source denotes: definitions over its lines, the types that they speak of, and laws; a crate
//! without code.
//!
//! A [`Place`] is a section and an offset in it. A [`GotUse`] is what stands in the global offset table for a
//! name, by its [`GotKind`], and [`Exported`] a symbol that other objects may find.
//!
//! Of a line:
//!
//! - `specs/Numbers`: the number that is written, and where it fits.
//! - `specs/Expansions`: the table of instructions: what each needs to be known, and which instructions of
//!   the machine it stands for.
//! - `specs/Places`: the place of each line, and how much of each section the lines fill.
//! - `specs/Words`: the addresses of names, and the words of a line.
//! - `specs/Faults`: why a line is refused, and the first line that is.
//!
//! Of names:
//!
//! - `specs/Labels`: the names that lines define, and where.
//! - `specs/Names`: which names another object may define in place of this one.
//! - `specs/Once`: names among which each stands once.
//! - `specs/Uses`: what code and data need of names, each thing once and by first use: slots of the procedure
//!   linkage table, entries of the global offset table, imports, exports, versions.
//!
//! Of the object:
//!
//! - `specs/Tables`: what the lines ask of it as a whole, as its name and the libraries that it needs.
//! - `specs/Spots`: where sections and labels stand in it.
//! - `specs/Symbols`, `specs/Versions`, `specs/Fixes`: its symbols, the versions that it defines and needs,
//!   and the places that the linker fills.
//! - `specs/Contents`: all that it holds before anything has an address.
//! - `specs/Parts`: where each of its parts starts.
//! - `specs/Object`: its bytes, and whether they are too many.
//!
//! `specs/AsmDenotes/Denotes` puts these and the grammar of the lines together: the bytes that a source
//! denotes, or the line and the cause of its refusal. [`one_answer`]: it has one of these answers, and no other.
//!
//! [`worked_program`], [`worked_library`], [`worked_bytes`] and [`worked_faults`] are sources worked by hand, those
//! of `specs/Examples`: the definitions compute to what they have to. [`forms_are_those_of_the_table`]: a number
//! is out of range exactly where the instruction's form in `rv_isa` can't hold it. [`words_have_their_room`]: the
//! table gives an instruction as many words as its line's place has room for.
#![tactic(auto)]

mod asm_denotes;
mod law;
mod place;
mod uses;

pub use asm_denotes::one_answer;
pub use law::{
    forms_are_those_of_the_table, words_have_their_room, worked_bytes, worked_faults,
    worked_library, worked_program,
};
pub use place::Place;
pub use uses::{Exported, GotKind, GotUse};
