//! The laws of traces that runs leave.

ghost use Rattle.trace_laws.specs.Laws.{EndLinesAreLast, LegalTracesPass, RunsBeginAlone, RunsPass, StartsNameHarts, ThreadsBeginAlone, ThreadsPass};

/// Each line that a run ends with is the last of a trace.
pub fn end_lines_are_last()
    ensures { EndLinesAreLast }
{}

/// The text of a legal, whole journal whose lines name its harts is judged legal, over the files that it is legal by.
pub fn legal_traces_pass()
    ensures { LegalTracesPass }
{
    trace_read::events_have_lines();
}

/// The lines of a journal name its run's harts: startup looks up where each but the first begins, and until it is
/// over no other name is looked up for them.
pub fn starts_name_harts()
    ensures { StartsNameHarts }
{
    trace_read::events_have_lines();
}

/// In a run on one thread the first hart takes all turns until startup is over.
pub fn runs_begin_alone()
    ensures { RunsBeginAlone }
{
    hart_moves::turns_are_legal();
    hart_moves::turns_append();
    hart_moves::turns_leave_frames();
    history_state::nothing_comes_before_startup();
}

/// So the text of such a run is judged legal, over its files, where it had no preload names.
pub fn runs_pass()
    ensures { RunsPass }
{
    legal_traces_pass();
    starts_name_harts();
    runs_begin_alone();
    end_lines_are_last();
    world_turns::runs_stay_sound();
    world_laws::runs_are_whole();
    history_journal::accepted_object();
}

/// In a run on threads the first hart takes all turns until startup is over, too.
pub fn threads_begin_alone()
    ensures { ThreadsBeginAlone }
{
    hart_moves::turns_are_legal();
    hart_moves::turns_append();
    hart_moves::turns_leave_frames();
    history_state::nothing_comes_before_startup();
}

/// So the text of such a run is judged legal, over its files, where it had no preload names.
pub fn threads_pass()
    ensures { ThreadsPass }
{
    legal_traces_pass();
    starts_name_harts();
    threads_begin_alone();
    end_lines_are_last();
}
