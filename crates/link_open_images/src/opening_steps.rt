//! What an opening brings to each of the linker's lists, made before anything changes.
//!
//! [`modules_with`] gives the modules of thread-local storage with those of new objects, [`edges_of`] what
//! their relocations chose, and [`parts_of`] what is kept of their images. [`hold_all`], [`keep_all`] and
//! [`reserve_all`] put such things at the end of their lists, and take no memory where room was made.
//!
//! What is promised: each is what the history's state has of the new objects (`history_state`).
mod edges;
mod modules;
mod parts;
mod ranges;

pub use edges::{edges_of, hold_all};
pub use modules::modules_with;
pub use parts::{keep_all, parts_of};
pub use ranges::reserve_all;
