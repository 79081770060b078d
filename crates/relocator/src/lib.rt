//! Relocation: an object's image becomes the words that the guest sees.
//!
//! [`relocate`] takes the image that `seg_image` made of an object and applies every relocation to
//! it: those of DT_RELA, the packed ones (RELR), the slots, bound or lazy, the first two words of
//! .got.plt, which are the linker's, and copies on top of all else. What the symbols of relocations
//! were bound to comes in as data, one [`Binding`] a relocation.
//!
//! What is promised: each word of the image is that of one definition, `image_word` in specs/, an
//! equation for every address of the object's pages, and the roles stay as they were. The one
//! refusal is that of a TLS_TPREL64 whose chosen object has no static offset, and it comes exactly
//! then, with the place of the first. No call takes memory.
#![tactic(auto)]

mod binding;
mod copying;
mod law;
mod relocating;
mod storage;

pub use binding::{Binding, Bindings, ModulePlace, TlsPlaces};
pub use law::{slots_hold, worked_example};
pub use relocating::{RelocFault, relocate};
