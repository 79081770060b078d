//! The law of startup's opening.

ghost use Rattle.trace_opens.specs.OpeningRows.Startup.{StartupNeedsNoPast};

/// While nothing was loaded, an opening may come exactly where it may come as the first event: events that came
/// before it have touched nothing that it asks for.
pub(crate) fn startup_needs_no_past()
    ensures { StartupNeedsNoPast }
{
    history_state::nothing_comes_before_startup();
}
