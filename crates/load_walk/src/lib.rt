//! A load, one path after another.
//!
//! A load asks for names: its own, and then those of each new object in order. Each finds an
//! object that is there, or a file that is read. A `Walker` goes through the names without reading
//! anything: it says which path it has to know next, and is told what reading it gave. One loop knows
//! the library. What was read is remembered, so that no path is read twice; so there is always one
//! list of files, the library's own where it tells them, over which the load is that of the
//! definitions in `scope_rule`. That is the contract of [`plan_with`]. New
//! objects are found by path and by name in an index (`Arrivals`), and so are those that are there once a
//! load went through more than a few names (`ObjectsThere`). A read fault or a missing
//! library comes only where the library failed, or missed each path that the name may have.
//!
//! [`find_loaded`] is the load that reads nothing, as under RTLD_NOLOAD.
//!
//! What bytes are as an object is a [`Format`]'s, which stands above: so this crate needs no reader,
//! and is proved beside the readers. `load_order` loads ELF objects with it.
#![tactic(auto)]

mod arrivals;
mod ask;
mod defined_versions;
mod driver;
mod finding;
mod format;
mod loaded;
mod lookup;
mod missed;
mod objects_there;
mod places;
mod plan;
mod records;
mod versions;
mod walker;

pub use ask::{LoadAsk, LoadFault, LoadPlan};
pub use format::Format;
pub use loaded::find_loaded;
pub use plan::plan_with;
