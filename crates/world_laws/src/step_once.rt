//! Steps of a hart over doublewords that lie side by side are determined: what the registers ask for and
//! what the doublewords hold settle the calls, their answers, where the hart is and what is left.
//!
//! There is no code but a law: a function without a body, whose contract is the law.
mod law;

pub use law::steps_are_one;
