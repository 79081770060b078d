//! What is put into guest memory.

use ld_base::Sequence;
use seg_image::Images;

/// Where a slot stands, and what it holds until it is bound.
#[derive(Clone, Copy, PartialEq, Eq)]
pub struct SlotWord {
    pub address: u64,
    pub lazy: u64,
}

/// The slots of objects in load order, each object's in the order of the file.
pub type SlotWords = Sequence<SlotWord>;

/// What an opening, or a hart's first use of a block, puts into guest memory.
#[derive(Drop)]
pub struct Installs {
    /// The new objects, relocated, in load order.
    pub images: Images,
    pub slots: SlotWords,
    /// Stacks, static areas and blocks: their words are read and written.
    pub areas: Images,
}
