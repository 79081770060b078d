//! The lines of a run's history.
//!
//! [`write_event`] writes the line of an event: words apart by one space, the first of which names
//! the kind of event, and a line feed. [`event_text`] is that line by itself, and [`EndText`] the words
//! of a hart's end.
//!
//! `run_texts` has the lines of a run's end and its record.
#![tactic(auto)]

mod ends;
mod lists;
mod run_texts;
mod writing;

pub use ends::EndText;
pub use run_texts::{
    Counts, RunEnd, RunRecord, deciding_harts_are_named, ends_are_last, events_are_sayable,
    guest_text, guests_are_printed, journal_text, journals_are_printed, later_ends_count,
    one_run_end,
};
pub use writing::{event_text, write_event};
