//! What the events of one turn of a hart come to.
//!
//! `hart_moves` says which events a turn appends. Here stands what all of them have in common
//! (`specs/Appends.antt`): an unmapping is alone in its turn, and an end of the hart stands last and is
//! the end that the hart has then. Only the last of the final destructors ends a hart without an event.
//!
//! There is no code but laws: functions without a body, whose contract is the law.
mod law;

pub use law::turns_append;
