//! What the lines of an assembler source say of names.
//!
//! [`Uses`] has all of it: [`Labels`] finds the first line that defines a name, and tells whether a line
//! defines one that is taken; [`Preemption`] tells which names another object may define; which names
//! have a slot in the procedure linkage table, and what stands in the global offset table ([`Got`]); the
//! undefined symbols, those that other objects may find, and versions. [`Operand`] is what an
//! instruction needs before it has its words. What all that means is in `asm_layout`, definitions over
//! the lines. Each list is made in one walk over the lines, and names are found by their hashes.
#![tactic(auto)]

mod export_set;
mod first_numbers;
mod got;
mod labels;
mod name_set;
mod names;
mod need_map;
mod object_words;
mod operand;
mod preemption;
mod uses;

pub use first_numbers::FirstNumbers;
pub use got::Got;
pub use labels::Labels;
pub use name_set::NameSet;
pub use object_words::{hash_of, is_relr, kind_of};
pub use operand::Operand;
pub use preemption::{Preemption, is_foreign, is_got_plt};
pub use uses::Uses;
