//! Written schedules and numbers.

use cli_read::{TurnsFault, decimal_number, read_turns};
use std::alloc::Global;
use test_file::{Fault, Words, show_some};

/// The number that a text is in decimal.
pub fn number(alloc: Global, text: &str) -> Result<String, Fault> {
    show_some(alloc, decimal_number(text.as_bytes()))
}

/// The items of a schedule of so many harts, each with its hart and its turns.
pub fn turns(alloc: Global, words: &mut Words) -> Result<String, Fault> {
    let harts = words.number32()?;
    let turns = match read_turns(alloc, words.text()?, harts) {
        Ok(turns) => turns,
        Err(TurnsFault::NotTurns) => return Ok(String::from_str(alloc, "NotTurns")?),
        Err(TurnsFault::Memory) => return Err(Fault::Memory),
    };
    let mut text = String::from_str(alloc, "turns")?;
    for item in turns.as_slice() {
        write!(text, " {}*{}", item.hart.number(), item.count)?;
    }
    Ok(text)
}
