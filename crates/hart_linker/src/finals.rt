//! The final destructors.

/// How the final destructors of a run begin.
#[derive(Clone, Copy, PartialEq, Eq)]
pub enum Beginning {
    /// Not every hart has ended by exit: there is nothing to run.
    HartsRun,
    /// No object is left: there is nothing to run.
    NoneLeft,
    /// The first hart is to run those of the object that comes first.
    Begun,
    /// There is no memory to list what is left: the first hart has ended once more.
    Memory,
}
