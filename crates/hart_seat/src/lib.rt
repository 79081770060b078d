//! A hart between two turns.
//!
//! A [`LinkedHart`] is a hart that runs with its linker: its registers, what it has copied of what it
//! passes, how far it is with a slot, the functions that the linker has it run, and its turns.
//! [`LinkedHart::due`] says what its next turn is, and [`LinkedHart::finalised_object`] whose final
//! destructors have run, if its next turn is the one behind them. Each other method is what a kind of
//! turn makes of it, as the table of `hart_moves` has it. What memory and the linker answer comes in as
//! arguments.
//!
//! No method takes memory but [`LinkedHart::make_room`], which is called before a service that may have
//! the hart run functions.
//!
//! `hart_parts` has what is kept between turns, and what a turn is due ([`Due`]).
#![tactic(auto)]

mod hart;
mod hart_parts;
mod phase;

pub use hart::{FinalisedObject, LinkedHart};
pub use hart_parts::{
    A0, A1, A2, Call, Copying, Due, FunctionQueue, NEXT_FUNCTION, Naming, Offered, PassedBytes,
    Purpose, RA, Service, enter_function, first_left, number_at, passed_objects, return_with,
    service_at, start, variable_at,
};
