//! Grants over guest memory in atomic words: two harts that resolve one slot, and words that lose their roles.
mod calls;
mod runs;
mod words;

pub use runs::raced;
