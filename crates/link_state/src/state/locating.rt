//! Requests of blocks of thread-local storage.

ghost use Rattle.std.specs.Prelude.{◌≡◌, ◌<◌, None, IfErr, IfOk};
ghost use Rattle.history_state.specs.After.{after};
ghost use Rattle.history_state.specs.Storage.{tls_block};
ghost use Rattle.link_state.specs.Locating.{IsLocated, IsModuleOf, IsNotLocated, PlansBlock, PlansNone};

use crate::LinkState;
use crate::faults::TlsFault;
use history_journal::accepted_object;
use history_state::{images_are_found, objects_are_read};
use ld_base::{HartId, Serial};
use link_holds::{nothing, store_block};
use link_open_images::{
    BlockFault, NewBlock, harts_have_new_blocks, new_block, new_blocks_are_installed,
};
use link_search::block_in;
use link_spaces::object_in;
use std::alloc::AllocError;

impl LinkState {
    /// Where a hart has its block of the module with a number: the block is made at the hart's first use.
    ///
    /// # Errors
    ///
    /// That no module has the number, that there are no pages for the block, or want of memory. Nothing has
    /// changed then.
    pub fn tls_block(&mut self, hart: HartId, module: u64) -> Result<u64, TlsFault>
        requires hart { hart < self.old.harts }
        ensures ok { IfOk result (λ block. IsLocated self.old hart «module» block self.new) }
        ensures err { IfErr result (λ e. IsNotLocated self.old hart «module» e self.new) }
    {
        let Some(found) = self.modules.find(module) else {
            return Err(TlsFault::BadModule(module));
        };
        match self.block_of(hart, found.serial) {
            Ok(Some(block)) => {
                self.made = nothing(self.alloc);
                Ok(block)
            }
            Ok(None) => self.get_block(hart, module, found.serial),
            Err(_) => Err(TlsFault::Memory),
        }
    }

    /// Where a hart has its block of an object's module, if it has one.
    pub(crate) fn block_of(&self, hart: HartId, serial: Serial) -> Result<Option<u64>, AllocError>
        ensures { IfOk result (λ block. block ≡ tls_block (after self.now.events) hart serial) }
    {
        block_in(
            self.reserved.as_slice(),
            &self.modules,
            &self.blocks,
            hart,
            serial,
        )
    }

    /// A block of an object's thread-local storage, in the first pages that have room.
    pub(crate) fn plan_block(&self, serial: Serial) -> Result<NewBlock, BlockFault>
        ensures ok { IfOk result (PlansBlock (after self.now.events) serial) }
        ensures err { IfErr result (PlansNone (after self.now.events) serial) }
    {
        objects_are_read();
        accepted_object();
        images_are_found();
        let _ = self.journal.journal();
        let Some(object) = object_in(self.namespaces.as_slice(), serial) else {
            return Err(BlockFault::Memory);
        };
        let Some(segment) = object.object.tls else {
            return Err(BlockFault::Memory);
        };
        let Some(part) = self.parts.find(serial) else {
            return Err(BlockFault::Memory);
        };
        new_block(
            self.alloc,
            self.reserved.regions(),
            segment,
            part.storage.as_slice(),
        )
    }

    /// The hart gets its block of an object's module, which it hasn't yet.
    fn get_block(&mut self, hart: HartId, module: u64, serial: Serial) -> Result<u64, TlsFault>
        requires hart { hart < self.old.harts }
        requires there { IsModuleOf (after self.old.events) «module» serial }
        requires none { tls_block (after self.old.events) hart serial ≡ None }
        ensures ok { IfOk result (λ block. IsLocated self.old hart «module» block self.new) }
        ensures err { IfErr result (λ e. IsNotLocated self.old hart «module» e self.new) }
    {
        new_blocks_are_installed();
        harts_have_new_blocks();
        accepted_object();
        let _ = self.journal.journal();
        let block = self.plan_block(serial)?;
        store_block(
            &mut self.reserved,
            &mut self.blocks,
            &mut self.closings,
            &mut self.journal,
            hart,
            serial,
            &block,
            1,
        )?;
        let NewBlock {
            address,
            installs,
            ..
        } = block;
        self.made = installs;
        Ok(address)
    }
}
