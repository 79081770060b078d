//! Look-ups of symbols.

ghost use Rattle.std.specs.Prelude.{◌≡◌, ◌<◌, None, IfErr, IfOk, IsTrue, OnErr};
ghost use Rattle.history_event.specs.declared.event.SymAnswer.TheVariants.{Found};
ghost use Rattle.history_state.specs.After.{after};
ghost use Rattle.history_state.specs.Lookup.{IsShort, MayAnswer, wanted_of};
ghost use Rattle.history_state.specs.Objects.{has_namespace};
ghost use Rattle.history_state.specs.Relocating.{version_of};
ghost use Rattle.history_state.specs.Storage.{tls_block};
ghost use Rattle.link_state.specs.Looking.{FindsVariable, IsLookedUp, sym_fault};
ghost use Rattle.link_search.specs.Asking.{ask_of};
ghost use Rattle.link_search.specs.Finding.{IsSymFault};

use crate::LinkState;
use elf_object::one_object;
use history_event::SymAsk;
use history_journal::accepted_object;
use history_state::{objects_are_read, symbols_are_stored};
use ld_base::{Choice, DlFault, HartId, NsId, Serial, Want};
use link_holds::{found_event, nothing, store_block};
use link_open_images::{BlockFault, NewBlock, harts_have_new_blocks, new_blocks_are_installed};
use link_search::{SymFault, find_symbol, symbol_ask, variable_in};
use link_spaces::address_of;

impl LinkState {
    /// Where the definition of a name is that a look-up by a caller in a namespace finds (dlsym(3),
    /// dlvsym(3)); a variable of thread-local storage is in the hart's block, which is made at its first
    /// use. `want` is dlsym's or dlvsym's; name and version have at most 255 bytes, since what is longer is
    /// refused by `apply_refusal`.
    ///
    /// # Errors
    ///
    /// A refusal, which the journal doesn't get, or want of memory. Nothing has changed then.
    pub fn sym(
        &mut self,
        hart: HartId,
        ns: NsId,
        handle: u64,
        name: &[u8],
        want: &Want,
    ) -> Result<u64, SymFault>
        requires hart { hart < self.old.harts }
        requires caller { IsTrue (has_namespace (after self.old.events) ns) }
        requires want { want.now ≡ wanted_of (version_of want.now) }
        requires short { IsShort (ask_of ns handle name.now want.now) }
        ensures ok { IfOk result (λ value. IsLookedUp self.old hart (ask_of ns handle name.now want.now) value self.new) }
        ensures refused { IfErr result (IsSymFault (after self.old.events) hart (ask_of ns handle name.now want.now)) }
        ensures err { OnErr result (self.new ≡ self.old) }
    {
        objects_are_read();
        one_object();
        let _ = self.journal.journal();
        let ask = symbol_ask(self.alloc, ns, handle, name, want)?;
        let namespaces = self.namespaces.as_slice();
        let (serial, index) = find_symbol(self.alloc, namespaces, &ask, want)?;
        match variable_in(namespaces, serial, index) {
            Some(offset) => self.find_variable(hart, ask, serial, index, offset),
            None => {
                let value = address_of(namespaces, Choice::Def(serial, index));
                self.note_found(hart, ask, serial, index, value)
            }
        }
    }

    /// Where a variable is in the hart's block.
    fn find_variable(
        &mut self,
        hart: HartId,
        ask: SymAsk,
        serial: Serial,
        index: u32,
        offset: u64,
    ) -> Result<u64, SymFault>
        requires hart { hart < self.old.harts }
        requires finds { FindsVariable (after self.old.events) ask serial index offset }
        ensures ok { IfOk result (λ value. IsLookedUp self.old hart ask value self.new) }
        ensures refused { IfErr result (IsSymFault (after self.old.events) hart ask) }
        ensures err { OnErr result (self.new ≡ self.old) }
    {
        match self.block_of(hart, serial)? {
            Some(block) => {
                let value = block.wrapping_add(offset);
                self.note_found(hart, ask, serial, index, value)
            }
            None => self.find_in_new_block(hart, ask, serial, index, offset),
        }
    }

    /// A look-up found this, and made nothing.
    fn note_found(
        &mut self,
        hart: HartId,
        ask: SymAsk,
        serial: Serial,
        index: u32,
        value: u64,
    ) -> Result<u64, SymFault>
        requires { MayAnswer (after self.old.events) hart ask (Found serial index value) }
        ensures ok { IfOk result (λ value. IsLookedUp self.old hart ask value self.new) }
        ensures refused { IfErr result (IsSymFault (after self.old.events) hart ask) }
        ensures err { OnErr result (self.new ≡ self.old) }
    {
        self.journal.make_room(1)?;
        self.made = nothing(self.alloc);
        self.journal
            .push(found_event(hart, ask, serial, index, value));
        Ok(value)
    }

    /// Where a variable is in the hart's block, which it gets.
    fn find_in_new_block(
        &mut self,
        hart: HartId,
        ask: SymAsk,
        serial: Serial,
        index: u32,
        offset: u64,
    ) -> Result<u64, SymFault>
        requires hart { hart < self.old.harts }
        requires finds { FindsVariable (after self.old.events) ask serial index offset }
        requires none { tls_block (after self.old.events) hart serial ≡ None }
        ensures ok { IfOk result (λ value. IsLookedUp self.old hart ask value self.new) }
        ensures refused { IfErr result (IsSymFault (after self.old.events) hart ask) }
        ensures err { OnErr result (self.new ≡ self.old) }
    {
        new_blocks_are_installed();
        harts_have_new_blocks();
        symbols_are_stored();
        accepted_object();
        let _ = self.journal.journal();
        let block = match self.plan_block(serial) {
            Ok(block) => block,
            Err(fault) => return Err(sym_fault(fault)),
        };
        store_block(
            &mut self.reserved,
            &mut self.blocks,
            &mut self.closings,
            &mut self.journal,
            hart,
            serial,
            &block,
            2,
        )?;
        let NewBlock {
            address,
            installs,
            ..
        } = block;
        let value = address.wrapping_add(offset);
        self.made = installs;
        self.journal
            .push(found_event(hart, ask, serial, index, value));
        Ok(value)
    }
}

/// Why a look-up has no block.
fn sym_fault(fault: BlockFault) -> SymFault
    ensures { result ≡ sym_fault fault }
{
    match fault {
        BlockFault::NoRoom(pages) => SymFault::Refused(DlFault::AddressSpaceFull(pages)),
        BlockFault::Memory => SymFault::Memory,
    }
}
