//! Parts of a turn on one thread that settles.
//!
//! A service settles first: each grant whose hart is done with it, hart by hart. [`settling_may_come`]
//! says that in a sound world each of these events may come after those before it. The hart whose turn
//! it is may be settled too, before it takes its turn, and [`freed_harts_move`] says that this is the
//! turn that it had. And [`others_leave_memory`] says which events leave memory as it is.
mod law;

pub use law::{freed_harts_move, others_leave_memory, settling_may_come};
