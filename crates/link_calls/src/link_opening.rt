//! Openings: what is asked of one and what it is to bring, before anything has changed.
//!
//! [`judge`] says in which namespace an opening is made, or what it is refused for before anything is looked
//! for: its name, its flags or its namespace, in this order (dlopen(3), dlmopen(3)). It takes no memory.
//! [`plan`] works an opening out: it judges what is asked, finds what the name leads to, gives new objects
//! their places and looks up what their relocations name; or it gives the first refusal in this order.
mod judging;
mod law;
mod planning;

pub use judging::judge;
pub use law::namespaces_are_few;
pub use planning::{OpenPlan, plan};
