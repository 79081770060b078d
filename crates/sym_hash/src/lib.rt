//! Hash tables of symbols: the System V table of the gABI ("Hash Table") and the GNU table.
//!
//! [`sysv_hash`] and [`gnu_hash`] are the hashes of names. [`Check::check`] reads the tables of an
//! object, and answers their words exactly where they don't break this rule; [`judge_table`] does the
//! same for parts that are judged and not yet kept. [`one_verdict`] says by relations what both answer.
//!
//! 19. No walk goes on for ever: in the GNU table one that a bucket begins comes to an end mark before
//!     the symbols are over, in the System V table it comes to 0 in no more steps than there are chain
//!     words. The walk for its name's hash passes every exported definition, which in the GNU table
//!     has a matching chain word and passes the bloom filter. The number is 0 for a walk, and else
//!     the first symbol that isn't found so. Beside a GNU table the System V table isn't walked.
#![tactic(auto)]

mod check;
mod follow;
mod gnu;
mod hash;
mod judge;
mod law;
mod sysv;

pub use check::Check;
pub use hash::{gnu_hash, sysv_hash};
pub use judge::judge_table;
pub use law::one_verdict;
