//! Modules of thread-local storage, and the blocks that a hart knows.
//!
//! [`TlsModules`] has the modules of all loaded objects: each with the least number that was free,
//! and each that was there when the harts started with its offset behind tp. [`Dtv`] keeps the
//! blocks of one hart, with the generation of the modules at which it last compared them: a block
//! counts only while its module is that of the same object.
#![tactic(auto)]

mod dtv;
mod entry;
mod law;
mod modules;
mod placing;

pub use dtv::{Dtv, TlsAnswer};
pub use entry::Entry;
pub use law::modules_stay_numbered;
pub use modules::TlsModules;
