//! Events, with what they hold.

use crate::HartEnd;
use ld_base::{
    Added, Bytes, Choice, DlFault, GrantNo, HartId, Name, NsId, Sequence, Serial, Serials,
};

/// What reserved pages are for.
#[derive(Clone, Copy, PartialEq, Eq)]
pub enum Purpose {
    /// The object's segments.
    Object(Serial),
    /// The hart's stack.
    Stack(HartId),
    /// The hart's blocks of the modules that were there when it started.
    StaticTls(HartId),
    /// The hart's block of the object's module.
    Block(HartId, Serial),
}

/// Reserved pages: the address of the first, their number, and what they are for.
#[derive(Clone, Copy, PartialEq, Eq)]
pub struct Range {
    pub address: u64,
    pub pages: u64,
    pub purpose: Purpose,
}

/// Ranges, in the order in which they were reserved.
pub type Ranges = Sequence<Range>;

/// What an opening asks for (dlmopen(3)).
#[derive(Drop)]
pub struct OpenAsk {
    /// The namespace; a new one where there is none (LM_ID_NEWLM).
    pub ns: Option<u64>,
    /// The program where there is none.
    pub name: Option<Name>,
    pub flags: u64,
}

/// What a look-up asks for (dlsym(3), dlvsym(3)).
#[derive(Drop)]
pub struct SymAsk {
    /// The namespace of the caller.
    pub ns: NsId,
    pub handle: u64,
    pub name: Name,
    /// The version that dlvsym names.
    pub version: Option<Name>,
}

/// What a refused call asked for.
#[derive(Drop)]
pub enum Ask {
    Open(OpenAsk),
    Sym(SymAsk),
    /// The handle.
    Close(u64),
}

/// What came of an opening.
#[derive(Drop)]
pub enum OpenAnswer {
    Done {
        ns: NsId,
        root: Serial,
        /// The new objects, in load order.
        added: Added,
        /// The pages that were reserved for them, and at startup for stacks and static areas.
        ranges: Ranges,
    },
    /// The object isn't there, and was only to be used if it is (RTLD_NOLOAD).
    Absent,
    Refused(DlFault),
}

/// What came of a closing.
#[derive(Drop)]
pub enum CloseAnswer {
    /// The objects that nothing needs any more, in load order.
    Done(Serials),
    Refused(DlFault),
}

/// What came of a look-up.
#[derive(Drop)]
pub enum SymAnswer {
    /// The object, the index of its symbol, and the address.
    Found(Serial, u32, u64),
    Refused(DlFault),
}

/// One step of a run's history.
#[derive(Drop)]
pub enum Event {
    Open {
        hart: HartId,
        ask: OpenAsk,
        answer: OpenAnswer,
    },
    Close {
        hart: HartId,
        handle: u64,
        answer: CloseAnswer,
    },
    /// The objects of a closing are gone.
    Unmapped {
        hart: HartId,
        set: Serials,
    },
    /// A slot is to get a value, if no other hart's gets there first.
    Grant {
        grant: GrantNo,
        hart: HartId,
        owner: Serial,
        slot: u32,
        choice: Choice,
        value: u64,
    },
    /// The slot got the value of the grant.
    Bound {
        grant: GrantNo,
    },
    /// The slot had another value.
    Lost {
        grant: GrantNo,
        saw: u64,
    },
    /// A slot has nothing to be bound to, or not code.
    Unresolved {
        hart: HartId,
        owner: Serial,
        slot: u32,
        choice: Choice,
    },
    Sym {
        hart: HartId,
        ask: SymAsk,
        answer: SymAnswer,
    },
    /// The hart got a block of the object's thread-local storage.
    Tls {
        hart: HartId,
        owner: Serial,
        address: u64,
    },
    /// The object's constructors have run: it is ready.
    Init {
        hart: HartId,
        object: Serial,
    },
    /// The object's destructors have run.
    Fini {
        hart: HartId,
        object: Serial,
    },
    Wrote {
        hart: HartId,
        bytes: Bytes,
    },
    /// The hart was told the refusal that was kept for it (dlerror(3)).
    Told {
        hart: HartId,
        fault: Option<DlFault>,
    },
    Ended {
        hart: HartId,
        end: HartEnd,
    },
}
