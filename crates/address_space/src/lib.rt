//! Which pages of guest memory are free.
//!
//! Guest memory has 2,048 pages of 4,096 bytes, from address 0x10000 on. The last of them, at
//! 0x80f000, is the linker's own and is never given away. [`Regions`] keeps the free pages, and
//! contracts see it as their list, in order of address. It gives pages away by first fit: at the
//! least address of the wanted alignment from which on so many pages are all free. No call takes
//! memory.
#![tactic(auto)]

mod regions;

pub use regions::{NoRoom, Regions};
