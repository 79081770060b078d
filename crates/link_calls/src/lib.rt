//! The calls of dl functions over the linker's state.
//!
//! [`dlopen`] and [`dlmopen`] open an object by its name, with all that it needs (dlopen(3), dlmopen(3)),
//! [`dlsym`] and [`dlvsym`] look a name up for a caller in a namespace (dlsym(3), dlvsym(3)), [`dlclose`] closes
//! a handle once (dlclose(3)), and [`dlerror`] tells a hart the refusal that is kept for it (dlerror(3)). What
//! comes of a call is its answer ([`Served`](history_calls::Served)), with its events in the journal; a refusal is
//! kept for the hart. After want of memory the state is as before. [`final_functions`] has the destructors that
//! are left at the end of a run.
//!
//! `link_opening` judges an opening: what it asks, whether it has to wait, and what refuses it.
#![tactic(auto)]

mod closing;
mod destructors;
mod law;
mod link_opening;
mod loading;
mod looking;
mod names;
mod opening;
mod refusing;
mod telling;

pub use closing::dlclose;
pub use destructors::final_functions;
pub use link_opening::{OpenPlan, judge, namespaces_are_few, plan};
pub use looking::{dlsym, dlvsym};
pub use opening::{dlmopen, dlopen};
pub use telling::dlerror;
