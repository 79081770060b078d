//! What a run is given, and how it starts.

use crate::link_served::Installs;
use history_event::{Entries, Functions, Journal};
use ld_base::{DlFault, Name, Names};

/// What a run is given.
#[derive(Drop)]
pub struct Setup {
    /// The path of the program.
    pub program: Name,
    /// Where libraries are looked for, in order.
    pub folders: Names,
    /// Names that the program needs before its own.
    pub preload: Names,
    /// Whether all slots are bound when their objects are loaded.
    pub bind_now: bool,
    /// The names at which the harts after the first start.
    pub harts: Names,
    /// How many turns each hart has.
    pub fuel: u64,
}

/// What startup made.
#[derive(Drop)]
pub struct Started {
    pub installs: Installs,
    /// The constructors, which the first hart runs before any other turn.
    pub functions: Functions,
    /// With which registers each hart starts.
    pub entries: Entries,
}

/// Why nothing starts.
#[derive(Drop)]
pub enum StartFault {
    /// The first refusal, and the events up to it.
    Refused(DlFault, Journal),
    /// Want of memory.
    Memory,
}
