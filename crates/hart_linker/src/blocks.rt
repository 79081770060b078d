//! The blocks of thread-local storage that a hart keeps.

ghost use Rattle.std.specs.Prelude.{◌≡◌, ◌==◌, ℕ, ◌<◌, ◌≤◌, Some, None, [], if◌then◌else◌, OnOk};
ghost use Rattle.tls_blocks.specs.Blocks.{block_at};

use history_event::Module;
use std::alloc::{AllocError, Global};
use std::marker::Model;
use tls_blocks::Entry;

/// The blocks of a hart, and the generation of the modules that they are of.
#[derive(Drop)]
pub struct HartBlocks {
    /// At most one of each module.
    entries: Vec<Entry>,
    generation: u64,
}

impl Model for HartBlocks {
    ghost use Rattle.std.specs.Prelude.{◌-◌};
    ghost use Rattle.std.specs.Vec.{vec_capacity, vec_len};
    ghost use Rattle.tls_blocks.specs.Blocks.{BlockTable};

    ghost Value = { BlockTable };

    ghost view = { λ b. record {
      entries = b.entries.items;
      generation = b.generation;
      spare = vec_capacity b.entries - vec_len b.entries;
    } };
}

impl HartBlocks {
    /// No blocks, of no modules.
    pub fn new(alloc: Global) -> Self
        ensures entries { result.entries ≡ [] }
        ensures generation { result.generation ≡ 0 }
    {
        HartBlocks {
            entries: Vec::new(alloc),
            generation: 0,
        }
    }

    /// The block that is kept for a module, if the blocks are of this generation.
    pub fn kept(&self, generation: u64, module: u64) -> Option<u64>
        ensures { result ≡ (if self.now.generation == generation then block_at self.now.entries «module» else None) }
    {
        if self.generation == generation {
            self.block(module)
        } else {
            None
        }
    }

    /// Makes room for a block more.
    ///
    /// # Errors
    ///
    /// Want of memory. Nothing has changed then.
    pub fn make_room(&mut self) -> Result<(), AllocError>
        ensures room { OnOk result (0 < self.new.spare) }
        ensures entries { self.new.entries ≡ self.old.entries }
        ensures generation { self.new.generation ≡ self.old.generation }
    {
        self.entries.reserve(1)
    }

    /// The blocks are of this generation from now on: those of another one are forgotten.
    pub fn begin(&mut self, generation: u64)
        ensures entries { self.new.entries ≡ (if self.old.generation == generation then self.old.entries else []) }
        ensures generation { self.new.generation ≡ generation }
        ensures spare { self.old.spare ≤ self.new.spare }
    {
        if self.generation != generation {
            self.entries.clear();
            self.generation = generation;
        }
    }

    /// Keeps a block of a module, in the place of the one that was kept of it. Room was made.
    pub fn keep(&mut self, module: Module, block: u64)
        requires room { 0 < self.old.spare }
        ensures blocks { (number : ℕ) → block_at self.new.entries number
            ≡ (if module.number == number then Some block else block_at self.old.entries number) }
        ensures generation { self.new.generation ≡ self.old.generation }
    {
        let Module { number, serial, .. } = module;
        self.entries.retain(|other| other.number != number);
        let _ = self.entries.push(Entry {
            number,
            serial,
            block,
        });
    }

    /// The block that is kept for a module.
    fn block(&self, module: u64) -> Option<u64>
        ensures { result ≡ block_at self.now.entries «module» }
    {
        for entry in self.entries.as_slice() {
            if entry.number == module {
                return Some(entry.block);
            }
        }
        None
    }
}
