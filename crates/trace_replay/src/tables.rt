//! The lists, each as what keeps it.

ghost use Rattle.std.specs.Prelude.{◌≡◌, IfOk};
ghost use Rattle.trace_replay.specs.Begun.{before_all};
ghost use Rattle.trace_replay.specs.Inside.{lists_of};

use crate::grants::GrantTable;
use history_event::{Chosen, Closing, Ending, Loading};
use history_journal::KeptFaults;
use ld_base::{NsId, Serial};
use link_lists::LateBlocks;
use link_spaces::{ReservedPages, empty_namespace};
use scope_rule::Namespace;
use std::alloc::{AllocError, Global};
use tls_blocks::TlsModules;

/// The lists that a history is replayed into.
#[derive(Drop)]
pub(crate) struct Tables {
    pub(crate) harts: u32,
    pub(crate) begins: bool,
    pub(crate) binds: bool,
    pub(crate) namespaces: Vec<Namespace>,
    pub(crate) next: u64,
    pub(crate) reserved: ReservedPages,
    pub(crate) modules: TlsModules,
    pub(crate) blocks: LateBlocks,
    pub(crate) grants: GrantTable,
    pub(crate) startup: Vec<Serial>,
    pub(crate) chosen: Vec<Chosen>,
    pub(crate) pinned: Vec<Serial>,
    pub(crate) closings: Vec<Closing>,
    pub(crate) unfinished: Vec<Serial>,
    pub(crate) kept: KeptFaults,
    pub(crate) endings: Vec<Ending>,
    pub(crate) starting: Vec<Loading>,
    pub(crate) heads: Vec<Serial>,
}

impl Tables {
    /// The lists before the first event of so many harts.
    ///
    /// # Errors
    ///
    /// Want of memory.
    pub(crate) fn new(alloc: Global, harts: u32) -> Result<Self, AllocError>
        ensures { IfOk result (λ t. lists_of t ≡ before_all harts) }
    {
        let mut namespaces = Vec::with_capacity(alloc, 1)?;
        namespaces.push_reserved(empty_namespace(alloc, NsId::BASE));
        Ok(Tables {
            harts,
            begins: true,
            binds: false,
            namespaces,
            next: 1,
            reserved: ReservedPages::new(alloc),
            modules: TlsModules::new(alloc),
            blocks: LateBlocks::new(alloc),
            grants: GrantTable::new(alloc),
            startup: Vec::new(alloc),
            chosen: Vec::new(alloc),
            pinned: Vec::new(alloc),
            closings: Vec::new(alloc),
            unfinished: Vec::new(alloc),
            kept: KeptFaults::new(alloc),
            endings: Vec::new(alloc),
            starting: Vec::new(alloc),
            heads: Vec::new(alloc),
        })
    }
}
