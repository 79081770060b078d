//! What came of a call of the linker.

use crate::event_lines::openings::added_of;
use crate::event_lines::parts::{fault, serials};
use history_event::{CloseAnswer, OpenAnswer, Ranges, SymAnswer};
use ld_base::{NsId, Serial};
use std::alloc::Global;
use test_file::{Fault, Words};

/// The answer of an opening. The line says nothing of the ranges.
pub fn open_answer(alloc: Global, words: &mut Words) -> Result<OpenAnswer, Fault> {
    match words.text()? {
        "ok" => {
            let ns = NsId::new(words.number32()?);
            let root = Serial::new(words.number()?);
            let added = added_of(alloc, words.text()?)?;
            let ranges = Ranges::new(alloc);
            Ok(OpenAnswer::Done {
                ns,
                root,
                added,
                ranges,
            })
        }
        "absent" => Ok(OpenAnswer::Absent),
        kind => Ok(OpenAnswer::Refused(fault(alloc, kind, words)?)),
    }
}

pub fn close_answer(alloc: Global, words: &mut Words) -> Result<CloseAnswer, Fault> {
    match words.text()? {
        "ok" => Ok(CloseAnswer::Done(serials(alloc, words.text()?)?)),
        kind => Ok(CloseAnswer::Refused(fault(alloc, kind, words)?)),
    }
}

pub fn sym_answer(alloc: Global, words: &mut Words) -> Result<SymAnswer, Fault> {
    match words.text()? {
        "ok" => {
            let object = Serial::new(words.number()?);
            let index = words.number32()?;
            let address = words.number()?;
            Ok(SymAnswer::Found(object, index, address))
        }
        kind => Ok(SymAnswer::Refused(fault(alloc, kind, words)?)),
    }
}
