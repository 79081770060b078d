//! What a run leaves.

ghost use Rattle.std.specs.Prelude.{◌≡◌, count_by};
ghost use Rattle.trace_text.specs.RunTexts.Counting.{counts_of, is_bound, is_grant, is_lost};

use history_event::{Ends, Event, Journal};

/// How many events a journal has, and how many of the kinds that are counted.
#[derive(Clone, Copy, PartialEq, Eq)]
pub struct Counts {
    pub events: u64,
    /// Slots that were granted.
    pub grants: u64,
    /// Grants whose value the slot got.
    pub bound: u64,
    /// Grants whose slot had another value.
    pub lost: u64,
}

/// What a run leaves.
#[derive(Drop)]
pub struct RunRecord {
    pub journal: Journal,
    /// Each hart's last end, in order of hart number; none where startup was refused.
    pub ends: Ends,
    /// The journal's numbers.
    pub counts: Counts,
    ghost counted: { counts ≡ counts_of journal.events },
}

impl Counts {
    /// The numbers of events.
    pub fn of(events: &[Event]) -> Self
        ensures { result ≡ counts_of events.now }
    {
        Counts {
            events: events.len() as u64,
            grants: grants_among(events) as u64,
            bound: bound_among(events) as u64,
            lost: lost_among(events) as u64,
        }
    }
}

impl RunRecord {
    /// The record of a run with this journal, whose harts' last ends are these.
    pub fn new(journal: Journal, ends: Ends) -> Self
        ensures journal { result.journal ≡ journal }
        ensures ends { result.ends ≡ ends }
    {
        let counts = Counts::of(journal.as_slice());
        RunRecord {
            journal,
            ends,
            counts,
        }
    }
}

fn grants_among(events: &[Event]) -> usize
    ensures { result ≡ count_by is_grant events.now }
{
    events.iter().filter(|event| is_grant(event)).count()
}

fn bound_among(events: &[Event]) -> usize
    ensures { result ≡ count_by is_bound events.now }
{
    events.iter().filter(|event| is_bound(event)).count()
}

fn lost_among(events: &[Event]) -> usize
    ensures { result ≡ count_by is_lost events.now }
{
    events.iter().filter(|event| is_lost(event)).count()
}

#[tactic(auto, unfolding(crate::specs::RunTexts::Counting::is_grant))]
fn is_grant(event: &Event) -> bool
    ensures { result ≡ is_grant event.now }
{
    matches!(event, Event::Grant { .. })
}

#[tactic(auto, unfolding(crate::specs::RunTexts::Counting::is_bound))]
fn is_bound(event: &Event) -> bool
    ensures { result ≡ is_bound event.now }
{
    matches!(event, Event::Bound { .. })
}

#[tactic(auto, unfolding(crate::specs::RunTexts::Counting::is_lost))]
fn is_lost(event: &Event) -> bool
    ensures { result ≡ is_lost event.now }
{
    matches!(event, Event::Lost { .. })
}
