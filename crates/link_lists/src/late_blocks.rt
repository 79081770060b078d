//! The blocks of thread-local storage that harts got at their first use of a module.
//!
//! [`LateBlocks`] has them in the order in which they came. Blocks of modules that were there when the
//! harts started stand in static areas, and are none of these.
mod blocks;

pub use blocks::LateBlocks;
