//! Events as their lines of text have them.

use crate::{CloseAnswer, HartEnd, OpenAsk, SymAnswer, SymAsk};
use ld_base::{
    Bytes, Choice, DlFault, GrantNo, HartId, Name, NsId, Sequence, Serial, Serials, TlsPlace,
};

/// What the line of an opening says of a new object.
#[derive(Drop)]
pub struct NewLine {
    pub serial: Serial,
    pub path: Name,
    pub base: u64,
    pub module: Option<TlsPlace>,
}

/// New objects, in load order.
pub type NewLines = Sequence<NewLine>;

/// What came of an opening, as far as its line says it.
#[derive(Drop)]
pub enum OpenLine {
    Done {
        ns: NsId,
        root: Serial,
        added: NewLines,
    },
    Absent,
    Refused(DlFault),
}

/// What the line of an event says: all of it, but of an opening neither the objects' records nor
/// the pages.
#[derive(Drop)]
pub enum EventLine {
    Open {
        hart: HartId,
        ask: OpenAsk,
        answer: OpenLine,
    },
    Close {
        hart: HartId,
        handle: u64,
        answer: CloseAnswer,
    },
    Unmapped {
        hart: HartId,
        set: Serials,
    },
    Grant {
        grant: GrantNo,
        hart: HartId,
        owner: Serial,
        slot: u32,
        choice: Choice,
        value: u64,
    },
    Bound {
        grant: GrantNo,
    },
    Lost {
        grant: GrantNo,
        saw: u64,
    },
    Unresolved {
        hart: HartId,
        owner: Serial,
        slot: u32,
        choice: Choice,
    },
    Sym {
        hart: HartId,
        ask: SymAsk,
        answer: SymAnswer,
    },
    Tls {
        hart: HartId,
        owner: Serial,
        address: u64,
    },
    Init {
        hart: HartId,
        object: Serial,
    },
    Fini {
        hart: HartId,
        object: Serial,
    },
    Wrote {
        hart: HartId,
        bytes: Bytes,
    },
    Told {
        hart: HartId,
        fault: Option<DlFault>,
    },
    Ended {
        hart: HartId,
        end: HartEnd,
    },
}
