//! Definitions and lemmas that the readers of a file share: a module without code.
//!
//! - `specs/Broken` and `specs/First`: rules in order, each broken with a number or kept, and the
//!   first that is broken; `proofs/Firsts`: the first of the list is the least that is broken.
//! - `specs/Gives`: what a reader answers, beside what its bytes mean.
//! - `specs/Table` and `specs/Entries`: tables, whose entries may fail to be read; `proofs/Tables`,
//!   `proofs/Reading` and `proofs/Read`: a table is all of its entries, each at its own place.
//! - `specs/Before`: what stands before a mark.
//! - `specs/Least` and `proofs/Leasts`: the least number that passes a test.
