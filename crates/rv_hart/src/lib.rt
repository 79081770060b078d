//! One hart of RV64IMA over a bus.
//!
//! A [`Hart`] is a pc, 32 registers and a reservation. It works on whatever implements [`Bus`]: a
//! memory of one thread, or one that other harts change between any two calls. So a bus doesn't say
//! what memory holds. It says of each call what the call found and did, by one relation between the
//! bus before, the call with its answer (an [`Item`]), and the bus after. Each implementation gives
//! that relation its own meaning: what memory holds, or that a trail grew by the item.
//!
//! One instruction is done in two halves, on plain data: [`plan`] decodes a word and says the one
//! access that it asks for; [`complete`] takes the answer and leaves the registers. [`step`] does
//! both over any bus.
//!
//! What is promised:
//!
//! - [`plan`] and [`complete`] give exactly what the RISC-V Unprivileged ISA 20191213 says of each
//!   instruction: the access by the registers before, and pc, registers and reservation after, for
//!   each answer. Where the standard leaves a choice: an SC whose address or size isn't its
//!   reservation's fails without an access, once its alignment is tested; a jump or a taken branch
//!   to a target that is no multiple of 4 stops the hart with its registers as before.
//! - [`step`] makes one fetch at the pc and at most the one access that the word asks for, and
//!   leaves the registers that the table says; a hart that stops is as before.
//! - Calls, one after another, lead a hart by the instructions where each is the one that the
//!   registers ask for; they determine the registers at the end ([`calls_determine_the_end`]), and
//!   steps join to such runs ([`steps_join`]). They pass no ecall and count no fuel: that is for
//!   whoever runs the hart.
//! - What is left of a step's calls, for whoever keeps a trail, is all but a call that its address
//!   alone refuses, which finds nothing in memory ([`silent_steps`]).
//! - Each bus answers Misaligned exactly where the address is no multiple of the size, and refuses
//!   only a role that doesn't allow the access.
//!
//! [`Doubleword`], [`lane`], [`with_lane`] and [`combined`] are what a bus is made of: a doubleword
//! with a role and a version, bytes within one, and what an atomic memory operation stores.
//!
//! No call takes memory.
#![tactic(auto)]

mod action;
mod arithmetic;
mod bus;
mod completion;
mod doubleword;
mod hart;
mod laws;
mod planning;
mod stepping;

pub use action::{Access, Action, Answer};
pub use arithmetic::combined;
pub use bus::{Bus, BusFault, Item};
pub use completion::complete;
pub use doubleword::{Doubleword, lane, with_lane};
pub use hart::{Hart, Held};
pub use laws::{calls_determine_the_end, division_at_its_edges, silent_steps, steps_join};
pub use planning::plan;
pub use stepping::{Stop, step};
