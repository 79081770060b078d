//! The dynamic table and the program headers, before anything has an address.

use crate::part::Part;

/// What an entry of the dynamic table tells.
#[derive(Clone, Copy)]
pub enum Told {
    /// A number.
    Number(u64),
    /// Where a part starts.
    Start(Part),
    /// How many bytes a part has.
    Size(Part),
}

/// An entry of the dynamic table.
#[derive(Clone, Copy)]
pub struct DynamicEntry {
    pub tag: u64,
    pub told: Told,
}

/// What a program header is about.
#[derive(Clone, Copy)]
pub enum SegmentKind {
    /// What is only read.
    Read,
    /// What runs.
    Run,
    /// What is only read once it is relocated.
    Relocated,
    /// What is written.
    Written,
    /// The dynamic table.
    Dynamic,
    /// The block of each thread.
    Tls,
    /// The pages that are only read once they are relocated.
    Relro,
}
