//! Lines of sources: `words` has a distance and an instruction, and `parse` lines of a source, a bar
//! between two of them.

use asm_code::{LineWords, instruction_words};
use asm_statement::{AsmFault, Line, Statement};
use asm_text::parse;
use std::alloc::Global;
use test_file::{Fault, whole};

/// A distance, which may have a minus sign.
fn distance_of(text: &str) -> Result<i64, Fault> {
    match text.strip_prefix("-") {
        Some(digits) => {
            let magnitude = i64::try_from(whole(digits).ok_or(Fault::Unclear)?);
            Ok(-magnitude.map_err(|_| Fault::Unclear)?)
        }
        None => i64::try_from(whole(text).ok_or(Fault::Unclear)?).map_err(|_| Fault::Unclear),
    }
}

/// The words of an instruction whose label is so far away.
pub fn words_of(alloc: Global, text: &str) -> Result<String, Fault> {
    let (distance, source) = text.split_once(' ').ok_or(Fault::Unclear)?;
    let distance = distance_of(distance)?;
    match parse(alloc, source.as_bytes()) {
        Ok(statements) => words_in(alloc, statements.as_slice(), distance),
        Err(_) => Err(Fault::Unclear),
    }
}

fn words_in(alloc: Global, lines: &[Line], distance: i64) -> Result<String, Fault> {
    match lines {
        [line] => words_in_line(alloc, line, distance),
        _ => Err(Fault::Unclear),
    }
}

fn words_in_line(alloc: Global, line: &Line, distance: i64) -> Result<String, Fault> {
    let Some(Statement::Instruction(instruction)) = &line.statement else {
        return Err(Fault::Unclear);
    };
    match instruction_words(instruction, distance) {
        Some(LineWords::One(word)) => Ok(format!(in alloc; "{word:#010x}")?),
        Some(LineWords::Two(first, second)) => {
            Ok(format!(in alloc; "{first:#010x} {second:#010x}")?)
        }
        Some(LineWords::Nothing) => Err(Fault::Unclear),
        None => Ok(String::from_str(alloc, "OutOfRange")?),
    }
}

/// The lines, with a line feed between two of them.
fn source_of(alloc: Global, text: &str) -> Result<String, Fault> {
    let mut source = String::new(alloc);
    for line in text.split(" | ") {
        if !source.is_empty() {
            source.push_str("\n")?;
        }
        source.push_str(line)?;
    }
    Ok(source)
}

/// How many lines are read, or the first that is refused and its cause.
pub fn verdict_of(alloc: Global, text: &str) -> Result<String, Fault> {
    let source = source_of(alloc, text)?;
    match parse(alloc, source.as_bytes()) {
        Ok(statements) => {
            let count = statements.len();
            Ok(format!(in alloc; "{count} lines")?)
        }
        Err(AsmFault::At(line, cause)) => Ok(format!(in alloc; "{line} {cause:?}")?),
        Err(AsmFault::Memory) => Err(Fault::Memory),
    }
}
