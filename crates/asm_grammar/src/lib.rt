//! The grammar of an assembler source: what each line says, what breaks one, and the same of a source.
//!
//! There is no code but laws: functions without a body, whose contract is the law. `specs/Grammar` says
//! what a line says (`SaysLine`) and why one says nothing (`BreaksLine`), `SaysSource` and `BreaksSource`
//! the same of a source; `specs/Operands` and `specs/Directives` are the tables of operands, a line a form.
//! `specs/Reading` says how lines are read, step by step, which is what a parser is proved against.
#![tactic(auto)]

mod law;

pub use law::{lines_are_read, one_line, one_source};
