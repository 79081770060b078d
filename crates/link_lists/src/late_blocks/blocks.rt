//! The blocks.

ghost use Rattle.std.specs.Prelude.{◌≡◌, ◌<◌, [], ◌∷◌, ◌++◌, filter, not, OnOk};
ghost use Rattle.history_graph.specs.Initialised.{is_one_of};
ghost use Rattle.link_lists.specs.LateBlocksPart.Blocks.{block_of};

use history_event::Block;
use history_graph::SerialSet;
use ld_base::{HartId, Serial};
use std::alloc::{AllocError, Global};
use std::marker::Model;

/// Blocks, in the order in which harts got them. Contracts see the list, with the room for more.
#[derive(Drop)]
pub struct LateBlocks {
    blocks: Vec<Block>,
}

impl Model for LateBlocks {
    ghost use Rattle.std.specs.Prelude.{◌-◌};
    ghost use Rattle.std.specs.Vec.{vec_capacity, vec_len};
    ghost use Rattle.link_lists.specs.LateBlocksPart.Blocks.{BlockList};

    ghost Value = { BlockList };

    ghost view = { λ b. record { blocks = b.blocks.items; spare = vec_capacity b.blocks - vec_len b.blocks } };
}

impl LateBlocks {
    /// No blocks.
    pub fn new(alloc: Global) -> Self
        ensures { result.blocks ≡ [] }
    {
        LateBlocks {
            blocks: Vec::new(alloc),
        }
    }

    /// The address of a hart's block of an object's module.
    pub fn find(&self, hart: HartId, serial: Serial) -> Option<u64>
        ensures { result ≡ block_of hart serial self.now.blocks }
    {
        for block in self.blocks.as_slice() {
            if block.hart == hart && block.serial == serial {
                return Some(block.address);
            }
        }
        None
    }

    /// Makes room for a block more.
    ///
    /// # Errors
    ///
    /// Want of memory.
    pub fn make_room(&mut self) -> Result<(), AllocError>
        ensures room { OnOk result (0 < self.new.spare) }
        ensures blocks { self.new.blocks ≡ self.old.blocks }
    {
        self.blocks.reserve(1)
    }

    /// One block more.
    pub fn push(&mut self, hart: HartId, serial: Serial, address: u64)
        requires { 0 < self.old.spare }
        ensures { self.new.blocks ≡ self.old.blocks ++ record { hart = hart; serial = serial; address = address } ∷ [] }
    {
        self.blocks.push_reserved(Block {
            hart,
            serial,
            address,
        });
    }

    /// Takes all blocks of some objects out.
    pub fn remove(&mut self, set: &[Serial])
        ensures { self.new.blocks ≡ filter (λ b. not (is_one_of set.now b.serial)) self.old.blocks }
    {
        let going = SerialSet::new(set);
        self.blocks.retain(|block| !going.has(block.serial));
    }
}
