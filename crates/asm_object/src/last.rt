//! The line of the last statement.

ghost use Rattle.std.specs.Prelude.{◌≡◌, is_some, if◌then◌else◌};
ghost use Rattle.asm_layout.specs.Object.{last_statement};

use asm_statement::{Line, Statements};

/// The last line with a statement, where one more line has this number.
fn last_with(last: u64, number: u64, line: &Line) -> u64
    ensures { result ≡ (if is_some line.now.statement then number else last) }
{
    if line.statement.is_some() {
        number
    } else {
        last
    }
}

/// The number of the last line that has a statement, counted from 1; 0 where none has one.
#[tactic(auto, unfolding(asm_layout::specs::Object::last_statement))]
pub(crate) fn last_statement(statements: &Statements) -> u64
    ensures { result ≡ last_statement statements.now }
{
    let mut last = 0;
    for (number, line) in statements.as_slice().iter().enumerate() {
        last = last_with(last, number as u64 + 1, line);
    }
    last
}
