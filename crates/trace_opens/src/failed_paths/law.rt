//! What a failed read is to an opening.

ghost use Rattle.trace_opens.specs.FailedPaths.Emptied.{EmptyIsRefused, FailsAnyway, OnlyAsEmptied, ReadsAsEmptied};

/// An opening may be stopped by the failed read of a path exactly where it would be stopped by the file at that
/// path, were that empty.
pub(crate) fn a_failed_read_is_an_empty_file()
    ensures reads { ReadsAsEmptied }
    ensures only { OnlyAsEmptied }
    ensures fails { FailsAnyway }
{
    scope_rule::one_outcome();
    scope_rule::finds_loaded();
    history_calls::one_answer();
}

/// An empty file is no object: it breaks the first rule.
pub(crate) fn empty_is_refused()
    ensures { EmptyIsRefused }
{}
