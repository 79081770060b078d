//! The laws of lines and of verdicts.

ghost use Rattle.trace_check.specs.Laws.{OneEvent, OneVerdict};

/// Where the files are told, a line is that of one event at most that may come next.
pub fn one_event()
    ensures { OneEvent }
{
    history_calls::one_answer();
}

/// Where the files are told, a text is judged one way at most.
pub fn one_verdict()
    ensures { OneVerdict }
{
    one_event();
    trace_read::lines_say_once();
}
