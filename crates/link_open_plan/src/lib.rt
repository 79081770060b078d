//! What an opening by name, and startup, is to bring, worked out before anything changes.
//!
//! [`plan_named`] finds what the name leads to, and gives the new objects their modules, their pages and what
//! their relocations choose (dlopen(3)). [`plan_program`] does the same for the program of a run, with each
//! hart's stack and static area. They read what they are lent of the linker's state ([`Before`]) and change
//! nothing but the library's counts.
//!
//! What is promised: the plan, or why there is none, is what the history asks of an opening.
//!
//! `opening_load` finds and reads what the name leads to, `object_places` gives new objects pages and modules,
//! `object_choices` has what their relocations choose.
#![tactic(auto)]

mod before;
mod choosing;
mod object_choices;
mod object_places;
mod opening_load;
mod planning;
mod startup;

pub use before::Before;
pub use object_choices::{ChoiceFault, choose};
pub use object_places::{PlaceFault, Places, place};
pub use opening_load::{Found, find};
pub use planning::{NewObjects, Planned, Unopened, plan_named};
pub use startup::plan_program;
