//! Modules of thread-local storage, which stay from line to line, and the blocks of one hart.

use ld_base::{Serial, TlsSeg};
use std::alloc::Global;
use test_file::{Fault, Words, show, show_some};
use tls_blocks::{Dtv, TlsModules};

/// The greatest alignment and size of a segment.
const LARGEST: u64 = 0x10_0000;

/// Modules, and the blocks that a hart keeps.
#[derive(Drop)]
pub struct Storage {
    modules: TlsModules,
    blocks: Dtv,
}

impl Storage {
    pub fn new(alloc: Global) -> Self {
        Storage {
            modules: TlsModules::new(alloc),
            blocks: Dtv::new(alloc),
        }
    }

    /// Adds an object's module: its serial, its segment's four numbers, and whether it is `late`. Gives
    /// its number and offset.
    pub fn add(&mut self, alloc: Global, words: &mut Words) -> Result<String, Fault> {
        let serial = Serial::new(words.number()?);
        let (vaddr, filesz) = (words.number()?, words.number()?);
        let (memsz, align) = (words.number()?, words.number()?);
        let late = words.text()? == "late";
        let modules = &mut self.modules;
        if memsz > LARGEST || align > LARGEST || modules.static_size() > 1 << 62 {
            return Err(Fault::Unclear);
        }
        if modules.generation() == u64::MAX {
            return Err(Fault::Unclear);
        }
        let seg = TlsSeg {
            vaddr,
            filesz,
            memsz,
            align,
        };
        let place = modules.add(serial, seg, late)?;
        let number = place.number;
        let offset = show_some(alloc, place.offset)?;
        Ok(format!(in alloc; "{number} {offset}")?)
    }

    /// Removes a module. Gives the generation.
    pub fn remove(&mut self, alloc: Global, words: &mut Words) -> Result<String, Fault> {
        let number = words.number()?;
        let modules = &mut self.modules;
        if modules.find(number).is_none() || modules.generation() == u64::MAX {
            return Err(Fault::Unclear);
        }
        modules.remove(number);
        show(alloc, modules.generation())
    }

    pub fn static_size(&self, alloc: Global) -> Result<String, Fault> {
        show(alloc, self.modules.static_size())
    }

    /// What a hart that knows no block is told of a module.
    pub fn first_answer(&self, alloc: Global, words: &mut Words) -> Result<String, Fault> {
        let module = words.number()?;
        let answer = Dtv::new(alloc).address(&self.modules, module);
        show(alloc, answer)
    }

    /// Keeps a block of a module.
    pub fn keep(&mut self, alloc: Global, words: &mut Words) -> Result<String, Fault> {
        let (module, block) = (words.number()?, words.number()?);
        if self.modules.find(module).is_none() {
            return Err(Fault::Unclear);
        }
        self.blocks.keep(&self.modules, module, block)?;
        show(alloc, block)
    }

    /// The block that is kept, at a generation, for a module.
    pub fn kept(&self, alloc: Global, words: &mut Words) -> Result<String, Fault> {
        let (generation, module) = (words.number()?, words.number()?);
        show_some(alloc, self.blocks.kept(generation, module))
    }
}
