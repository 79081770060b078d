//! What may stand behind the word of a command.

/// The options and the other words that a command has.
#[derive(Clone, Copy, PartialEq, Eq)]
pub enum Form {
    /// A program, and what it is bound with.
    Bind,
    /// A schedule, a program, and how it runs by the one.
    Turns,
    /// A program, and how it runs.
    Run,
    /// A path, and where libraries are looked for.
    Check,
    /// A path alone.
    Path,
    /// A number alone.
    Number,
}
