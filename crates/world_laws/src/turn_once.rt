//! A turn of a hart has one outcome: where the library tells its files, a world settles what its hart does
//! next and what is left, but for reads that fail and for want of memory.
//!
//! There is no code but a law: a function without a body, whose contract is the law.
mod law;

pub use law::turns_are_one;
