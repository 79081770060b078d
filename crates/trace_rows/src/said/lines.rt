//! The line of an opening.

ghost use Rattle.std.specs.Prelude.{◌≡◌, ◌↔◌, IsTrue};
ghost use Rattle.history_event.specs.declared.event.Event.TheVariants.{Open};
ghost use Rattle.trace_read.specs.Said.{said_of};

use super::openings::{same_ask, says_answer};
use history_event::{EventLine, OpenAnswer, OpenAsk};
use ld_base::HartId;

/// Whether the line is that of an opening.
pub fn says_open(line: &EventLine, hart: HartId, ask: &OpenAsk, answer: &OpenAnswer) -> bool
    ensures { IsTrue result ↔ (said_of (Open hart ask.now answer.now) ≡ line.now) }
{
    matches!(line, EventLine::Open { hart: h, ask: a, answer: said }
        if hart == *h && same_ask(ask, a) && says_answer(said, answer))
}
