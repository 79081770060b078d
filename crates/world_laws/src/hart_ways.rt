//! Each hart of a run follows to its end: its turns are moves at their places in the journal, from where
//! startup sets it off to the end that counts for it, and no event of its own is left out
//! (`hart_moves/specs/Follows.antt`).
//!
//! There is no code but a law: a function without a body, whose contract is the law.
mod law;

pub use law::harts_follow;
