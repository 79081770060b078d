//! The turns of a run on one thread, each by whom it is with.
//!
//! [`take_quiet`] takes the next turn of a hart, if the hart and memory take it alone: an instruction, a
//! doubleword that is copied or stored, the entry of a function, the exchange on a slot, or the end of its
//! offer. A hart that such a turn ends, and one whose turns are used up, ends with [`end_hart`]. Neither takes
//! memory.
//!
//! [`take_service`] takes it if it is a call of the linker, or the turn in which the constructors or
//! destructors of an object have run. The room for functions that the linker may have the hart run is taken
//! before; [`answer_with_room`] is that room and the linker's answer alone, for a hart of any world.
//!
//! The final destructors of the run have two calls. [`begin_finals`] has the first hart begin with them, once
//! each hart has ended by exit. [`take_final`] takes the turn in which those of an object have run. Both list
//! what is left, which takes memory: where there is none the hart ends, once more.
//!
//! A turn that leaves an event settles before it each grant that a hart is done with.
//!
//! `guest_worlds` says which world the linker's state, memory and harts are together, and which turns they take.

mod alone;
mod asking;
mod beginning;
mod carrying;
mod ending;
mod finals;
mod guest_worlds;
mod law;
mod outcome;
mod passing;
mod quiet;
mod service;
mod serving;

pub use beginning::{Beginning, begin_finals};
pub use ending::end_hart;
pub use finals::take_final;
pub use guest_worlds::{Turn, guests_may_turn, guests_take_turns, runs_stay};
pub use law::{ends_are_turns, refusals_are_counted};
pub use quiet::take_quiet;
pub use service::take_service;
pub use serving::answer_with_room;
