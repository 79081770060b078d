//! What the words ask for.

use history_calls::Setup;
use ld_base::{Name, Names};

/// What is asked of `bind`.
#[derive(Drop)]
pub struct Bind {
    /// Where libraries are looked for, in order.
    pub folders: Names,
    /// What is loaded before the program's own libraries.
    pub preload: Names,
    /// Whether each slot has to have a definition.
    pub now: bool,
    /// The program's path.
    pub program: Name,
}

/// What is asked of `turns`.
#[derive(Drop)]
pub struct Turns {
    pub setup: Setup,
    /// The schedule, as it is written.
    pub schedule: Name,
}

/// What is asked of `run`.
#[derive(Drop)]
pub struct Run {
    pub setup: Setup,
    /// Whether the journal is printed, in place of what the program wrote.
    pub trace: bool,
}

/// What is asked of `check`.
#[derive(Drop)]
pub struct Check {
    /// Where the run of the trace looks for libraries, in order.
    pub folders: Names,
    /// The trace's path.
    pub trace: Name,
}

/// What is to be done.
#[derive(Drop)]
pub enum Command {
    /// The definition of each slot of a program and its libraries.
    Bind(Bind),
    /// A run on one thread by a schedule.
    Turns(Turns),
    /// A run on threads.
    Run(Run),
    /// The object that the source at a path is.
    Assemble(Name),
    /// What the object at a path holds.
    Dump(Name),
    /// Whether the trace at a path is legal.
    Check(Check),
    /// A set of libraries made from a number, and its run.
    Generate(u32),
}
