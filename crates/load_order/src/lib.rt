//! Loading an object with all that it needs.
//!
//! [`plan_load`] finds the object that a name stands for and then, breadth-first, what it and each
//! further new object need: an object that is there by its own name or its path, else the first path
//! of the name at which there is a file, which it reads. It answers the new objects in load order,
//! each with what its names found, and the root's libraries. It places none of them, and leaves the
//! namespace as it is (gABI, "Shared Object Dependencies"; dlopen(3); Drepper, "ELF Symbol
//! Versioning").
//!
//! The load itself is `load_walk`'s, which knows no format of files; here it reads ELF objects. What
//! holds of every load is told by the laws of `scope_rule`, as `loads_breadth_first`.
#![tactic(auto)]

mod elf;
mod plan;

pub use elf::Elf;
pub use load_walk::{LoadAsk, LoadFault, LoadPlan, find_loaded};
pub use plan::plan_load;
