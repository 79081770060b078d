//! What a run leaves, how it ended, and the texts with which it is printed.
//!
//! A run leaves a [`RunRecord`]: its journal, how each hart ended, and the journal's numbers. How the
//! harts ended says how the run did ([`RunEnd`]), with which status, and in which last line.
//! [`journal_text`] prints the journal, an event a line; [`guest_text`] prints what the guest wrote
//! instead.
//!
//! Each text is the definition's, byte for byte, or there was no memory for it.
mod law;
mod record;
mod run_end;
mod texts;
mod worked_runs;

pub use law::{ends_are_last, events_are_sayable, one_run_end};
pub use record::{Counts, RunRecord};
pub use run_end::RunEnd;
pub use texts::{guest_text, journal_text};
pub use worked_runs::{
    deciding_harts_are_named, guests_are_printed, journals_are_printed, later_ends_count,
};
