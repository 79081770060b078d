//! Objects and what leads from one to another: definitions that orders, marks and the history of a
//! run cite.
//!
//! A [`Graph`] has nodes, edges and roots, each a plain list of serials. An edge may lead from or to
//! a serial that is no node. What is reached from the roots, what nothing needs, which object depends
//! on which and in what order objects are initialised stand in `specs/`, each over plain lists.
//! [`Successors`] looks the edges of a serial up.
//!
//! `serial_sets` is a set of serials, of which a look-up takes few steps.
#![tactic(auto)]

mod graph;
mod serial_sets;
mod successors;

pub use graph::{Edge, Edges, Graph};
pub use serial_sets::SerialSet;
pub use successors::Successors;
