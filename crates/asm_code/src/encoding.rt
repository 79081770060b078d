//! The words of a line.

/// The words of a line, by how many there are.
#[derive(Clone, Copy, PartialEq, Eq)]
pub enum LineWords {
    /// A line that is no instruction.
    Nothing,
    /// One instruction of the machine.
    One(u32),
    /// Two.
    Two(u32, u32),
}
