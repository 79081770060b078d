//! The operands of an assembler source's directives.
//!
//! What is promised of each word and every text: the answer is the directive that the grammar's table of
//! forms gives them, or nothing where the text isn't what the word asks for; or there was no memory.
mod directives;

pub use directives::directive;
