//! What a line says of an opening.

ghost use Rattle.std.specs.Prelude.{◌≡◌, ◌↔◌, IsTrue, map};
ghost use Rattle.trace_read.specs.Said.{said_of_answer, said_of_new};

use super::faults::{same, same_fault, same_name};
use history_event::{NewLine, NewLines, OpenAnswer, OpenAsk, OpenLine};
use ld_base::{Added, Loaded};

/// Whether two openings ask for the same.
pub(super) fn same_ask(one: &OpenAsk, other: &OpenAsk) -> bool
    ensures { IsTrue result ↔ (one.now ≡ other.now) }
{
    one.ns == other.ns && same_name(&one.name, &other.name) && one.flags == other.flags
}

/// Whether the line says of a new object what it is.
fn says_new(line: &NewLine, object: &Loaded) -> bool
    ensures { IsTrue result ↔ (said_of_new object.now ≡ line.now) }
{
    object.serial == line.serial
        && same(&object.path, &line.path)
        && object.base == line.base
        && object.module == line.module
}

/// Whether the lines say of new objects, one of each, what they are.
fn says_each(lines: &NewLines, objects: &Added) -> bool
    ensures { IsTrue result ↔ (map said_of_new objects.now ≡ lines.now) }
{
    let said = lines.as_slice();
    let new = objects.as_slice();
    if said.len() != new.len() {
        return false;
    }
    for (index, object) in new.iter().enumerate() {
        if !says_new(&said[index], object) {
            return false;
        }
    }
    true
}

/// Whether the line says what came of an opening.
pub(super) fn says_answer(line: &OpenLine, answer: &OpenAnswer) -> bool
    ensures { IsTrue result ↔ (said_of_answer answer.now ≡ line.now) }
{
    match answer {
        OpenAnswer::Done {
            ns,
            root,
            added,
            ..
        } => {
            matches!(line, OpenLine::Done { ns: n, root: r, added: lines }
                if ns == n && root == r && says_each(lines, added))
        }
        OpenAnswer::Absent => matches!(line, OpenLine::Absent),
        OpenAnswer::Refused(fault) => {
            matches!(line, OpenLine::Refused(said) if same_fault(fault, said))
        }
    }
}
