//! A run on one thread has one outcome: where the library tells its files, they, the setup and the
//! schedule settle its journal, what is left in memory, and its harts, but for reads that fail and for
//! want of memory.
//!
//! There is no code but a law: a function without a body, whose contract is the law.
mod law;

pub use law::runs_are_one;
