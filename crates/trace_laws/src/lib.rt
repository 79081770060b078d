//! What the texts of runs are judged to be.
//!
//! `trace_check` judges a text by itself. Here it is tied to the runs that print it: the text of a legal, whole
//! journal is judged legal, over the files that the run had ([`legal_traces_pass`]); so is that of a run without
//! preload names, on one thread ([`runs_pass`]) and on several ([`threads_pass`]). Of a run that is refused at its
//! start nothing is said: its text may name fewer harts than it had.
//!
//! There is no code but laws: functions without a body, whose contract is the law.
#![tactic(auto)]

mod law;

pub use law::{
    end_lines_are_last, legal_traces_pass, runs_begin_alone, runs_pass, starts_name_harts,
    threads_begin_alone, threads_pass,
};
