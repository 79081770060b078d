//! The blocks of one hart.

ghost use Rattle.std.specs.Prelude.{◌≡◌, ◌==◌, ◌<◌, ◌≤◌, None, [], if◌then◌else◌, IsOk, IsSome, OnErr, OnOk, filter, find};
ghost use Rattle.tls_blocks.specs.Numbers.{module_at};
ghost use Rattle.tls_blocks.specs.Blocks.{FitsModules, answer_of, block_at, compared, is_current, serial_at, with_entry};

use crate::{Entry, TlsModules};
use std::alloc::{AllocError, Global};
use std::marker::Model;

/// What a hart knows of a module's block.
#[derive(Clone, Copy, Debug, PartialEq, Eq)]
pub enum TlsAnswer {
    /// The address of its block.
    Block(u64),
    /// The module is there, and the hart has no block of it that it knows.
    NeedsBlock,
    /// There is no such module.
    BadModule,
}

/// The blocks of a hart. Contracts see it as the list of its entries, the generation of the modules
/// at which they were last compared, and the room that is kept for more.
#[derive(Drop)]
pub struct Dtv {
    /// At most one of each module.
    entries: Vec<Entry>,
    generation: u64,
}

impl Model for Dtv {
    ghost use Rattle.std.specs.Prelude.{◌-◌};
    ghost use Rattle.std.specs.Vec.{vec_capacity, vec_len};
    ghost use Rattle.tls_blocks.specs.Blocks.{BlockTable, AreApart};

    ghost Value = { BlockTable };

    ghost view = { λ d. record {
      entries = d.entries.items;
      generation = d.generation;
      spare = vec_capacity d.entries - vec_len d.entries;
    } };

    ghost invariant = { λ d. AreApart d.entries.items };
}

impl Dtv {
    /// No blocks, compared with no modules.
    pub fn new(alloc: Global) -> Self
        ensures entries { result.entries ≡ [] }
        ensures generation { result.generation ≡ 0 }
    {
        Dtv {
            entries: Vec::new(alloc),
            generation: 0,
        }
    }

    /// What the hart knows of a module's block, by these modules. Blocks of modules that aren't
    /// those that they were are dropped.
    pub fn address(&mut self, modules: &TlsModules, module: u64) -> TlsAnswer
        requires { FitsModules modules.now self.old }
        ensures answer { result ≡ answer_of modules.now.modules self.new.entries «module» }
        ensures entries { self.new.entries ≡ filter (is_current modules.now.modules) self.old.entries }
        ensures generation { self.new.generation ≡ modules.now.generation }
        ensures spare { self.old.spare ≤ self.new.spare }
    {
        self.compare(modules);
        match (modules.find(module), self.block(module)) {
            (None, _) => TlsAnswer::BadModule,
            (Some(_), Some(block)) => TlsAnswer::Block(block),
            (Some(_), None) => TlsAnswer::NeedsBlock,
        }
    }

    /// Keeps a block of a module, in the place of the one that was kept of it.
    ///
    /// # Errors
    ///
    /// Want of memory, where no room was made. Nothing has changed then.
    pub fn keep(&mut self, modules: &TlsModules, module: u64, block: u64) -> Result<(), AllocError>
        requires { IsSome (module_at modules.now.modules «module») }
        ensures entries { OnOk result (self.new.entries ≡
            with_entry (record { number = «module»; serial = serial_at modules.now.modules «module»; block = block }) (compared modules.now self.old)) }
        ensures generation { OnOk result (self.new.generation ≡ modules.now.generation) }
        ensures room { 0 < self.old.spare → IsOk result }
        ensures err_entries { OnErr result (self.new.entries ≡ self.old.entries) }
        ensures err_generation { OnErr result (self.new.generation ≡ self.old.generation) }
    {
        let serial = modules.find(module).unwrap().serial;
        self.entries.reserve(1)?;
        self.compare(modules);
        self.put(Entry {
            number: module,
            serial,
            block,
        });
        Ok(())
    }

    /// Makes room for a block more.
    ///
    /// # Errors
    ///
    /// Want of memory. Nothing has changed then.
    pub fn make_room(&mut self) -> Result<(), AllocError>
        ensures room { OnOk result (0 < self.new.spare) }
        ensures spare { self.old.spare ≤ self.new.spare }
        ensures entries { self.new.entries ≡ self.old.entries }
        ensures generation { self.new.generation ≡ self.old.generation }
    {
        self.entries.reserve(1)
    }

    /// The block that is kept for a module, if the entries were last compared at this generation.
    pub fn kept(&self, generation: u64, module: u64) -> Option<u64>
        ensures { result ≡ (if self.now.generation == generation then block_at self.now.entries «module» else None) }
    {
        if self.generation == generation {
            self.block(module)
        } else {
            None
        }
    }

    /// The block that is kept for a module.
    fn block(&self, module: u64) -> Option<u64>
        ensures { result ≡ block_at self.now.entries «module» }
    {
        for entry in self.entries.as_slice() {
            if entry.number == module {
                return Some(entry.block);
            }
        }
        None
    }

    /// Drops the blocks of modules that aren't those that they were, if there are other modules than
    /// at the last comparison.
    fn compare(&mut self, modules: &TlsModules)
        ensures entries { self.new.entries ≡ compared modules.now self.old }
        ensures generation { self.new.generation ≡ modules.now.generation }
        ensures spare { self.old.spare ≤ self.new.spare }
    {
        if self.generation != modules.generation() {
            self.entries.retain(|entry| is_current(modules, entry));
            self.generation = modules.generation();
        }
    }

    /// Puts an entry in the place of the module's old one.
    fn put(&mut self, entry: Entry)
        requires { 0 < self.old.spare }
        ensures entries { self.new.entries ≡ with_entry entry self.old.entries }
        ensures generation { self.new.generation ≡ self.old.generation }
    {
        let number = entry.number;
        self.entries.retain(|other| other.number != number);
        let _ = self.entries.push(entry);
    }
}

/// Whether the entry's module is there, and is still that of the same object.
fn is_current(modules: &TlsModules, entry: &Entry) -> bool
    ensures { result ≡ is_current modules.now.modules entry.now }
{
    match modules.find(entry.number) {
        Some(module) => module.serial == entry.serial,
        None => false,
    }
}
