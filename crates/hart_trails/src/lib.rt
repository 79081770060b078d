//! What a hart of a run on threads leaves in its trail, turn after turn, over the journal.
//!
//! A trail has the calls of the bus, the entries that the linker answered with, exchanges of slots, and
//! the generations that were read for thread-local storage. [`trails_follow`] says that whoever follows
//! by a trail follows as a hart of any run does; [`trails_grow`] is for a loop that takes one turn more. A
//! whole trail has one end, the last one that the journal has of its hart ([`trails_end`]), and a block that is
//! no event once for each module and generation ([`blocks_are_asked_once`]). It has no more turns than the
//! hart's fuel and three ([`fuel_bounds_turns`]).
//!
//! There is no code but laws: functions without a body, whose contract is the law.
#![tactic(auto)]

mod law;

pub use law::{
    blocks_are_asked_once, fuel_bounds_turns, trails_are_worked, trails_end, trails_follow,
    trails_grow,
};
