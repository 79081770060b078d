//! Which objects nothing needs any more.
//!
//! A closing unmaps what no chain of edges leads to from a root: [`unneeded`] gives exactly those
//! nodes of a graph, in its order. Each edge is followed once.
//!
//! Around it stands all that a closing takes: the graph of a namespace (`closing_graph`), its set and its plan
//! (`closing_sets`, `closing_plans`), the objects and modules that an unmapping takes out (`unmapped_objects`, `unmap_steps`).
#![tactic(auto)]

mod closing_graph;
mod closing_laws;
mod closing_plans;
mod closing_sets;
mod marking;
mod unmap_steps;
mod unmapped_objects;

pub use closing_graph::{edges_of, opened_in, roots_of};
pub use closing_laws::{closes_exactly, first_is_opened};
pub use closing_plans::{ClosingPlan, close_in, wait};
pub use closing_sets::closing_set;
pub use marking::unneeded;
pub use unmap_steps::{first_is_least, holding, remove_modules};
pub use unmapped_objects::{count_in, take_out};
