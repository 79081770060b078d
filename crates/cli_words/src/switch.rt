//! Options.

/// An option of a command.
#[derive(Clone, Copy, PartialEq, Eq)]
pub enum Switch {
    /// Where libraries are looked for.
    Lib,
    /// What is loaded before the program's own libraries.
    Preload,
    /// Where the harts behind the first begin.
    Harts,
    /// How many turns each hart has.
    Fuel,
    /// Each slot is bound at load.
    Now,
    /// The journal is printed.
    Trace,
}
