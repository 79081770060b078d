//! What a hart that runs with its linker is made of, beside its registers.
//!
//! [`Due`] is what the next turn of a hart is: an instruction, a doubleword that is copied or stored, a
//! [`Call`] of the linker, an exchange on a slot, or the next of the functions that the linker has it
//! run. Contracts read it as the definition of `hart_moves`, whatever the linker's state is: where a call
//! depends on its caller's namespace, the call has the caller's address instead.
//!
//! [`PassedBytes`] holds what a hart has copied of a name or a text, and [`FunctionQueue`] the functions
//! that it is to run for the linker. Neither takes memory.
mod due;
mod number;
mod passed;
mod queue;
mod registers;
mod service;
mod storage;

pub use due::{Call, Copying, Due, Naming, Offered, first_left};
pub use number::number_at;
pub use passed::PassedBytes;
pub use queue::{FunctionQueue, Purpose, passed_objects};
pub use registers::{A0, A1, A2, NEXT_FUNCTION, RA, enter_function, return_with, start};
pub use service::{Service, service_at};
pub use storage::variable_at;
