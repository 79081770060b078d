//! A run on one thread as its parts make it up: the linker's state, guest memory, and the harts.
//!
//! `MayBeAt` (`specs/Worlds.antt`) says that a run is at a world: whoever keeps the parts keeps it, whatever files
//! the library tells. The only type is [`Turn`], what came of a hart's turn, and there is no code: the functions
//! are laws, without a body, whose contract is the law. They say what the next turn of a hart meets at such a
//! moment, how a turn of the world is put together of what its hart, memory and the linker's state did, and that
//! the run goes on with it.
mod law;
mod turn;

pub use law::{guests_may_turn, guests_take_turns, runs_stay};
pub use turn::Turn;
