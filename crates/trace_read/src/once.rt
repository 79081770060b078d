//! What holds of lines.

ghost use Rattle.trace_read.specs.Laws.{EventsHaveLines, OneSaying};

/// A line says one thing, if any event has it.
pub fn lines_say_once()
    ensures { OneSaying }
{}

/// The line that is written of an event is its line, if any is.
pub fn events_have_lines()
    ensures { EventsHaveLines }
{}
