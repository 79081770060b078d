//! What the relocations of new objects are bound to.
//!
//! [`bindings_of`] makes an object's bindings, which `relocator` asks for, of what its relocations
//! choose: each definition's address and size, and for a copy the bytes of the definition, which are
//! taken of the images of libraries ([`Made`]).
//!
//! What is promised: the bindings are those of one definition (`bindings_in` in specs/), over what an
//! opening shows of the namespace.
mod binding;
mod copying;
mod definitions;

pub(crate) use binding::bindings_of;
pub(crate) use copying::Made;
