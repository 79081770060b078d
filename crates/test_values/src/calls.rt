//! The calls by their names.
//!
//! To add a call, write a function that takes its arguments from [`Words`] and gives the answer as
//! text, beside those of its topic, and name it here.

use crate::{asm_lines, event_lines, finding, hashes, instructions, pages, turns, views};
use address_space::Regions;
use std::alloc::Global;
use test_file::{Calls, Fault, Words};

/// The calls, and what some of them share from line to line.
#[derive(Drop)]
pub struct PlainCalls {
    alloc: Global,
    regions: Regions,
}

impl PlainCalls {
    pub fn new(alloc: Global) -> Self {
        let regions = Regions::new();
        PlainCalls { alloc, regions }
    }
}

impl Calls for PlainCalls {
    fn answer(&mut self, line: &str) -> Result<String, Fault> {
        let (call, rest) = line.split_once(' ').unwrap_or((line, ""));
        let mut words = Words::new(rest);
        let alloc = self.alloc;
        match call {
            "sysv_hash" => hashes::sysv(alloc, rest),
            "gnu_hash" => hashes::gnu(alloc, rest),
            "linker_symbol" => hashes::linker(alloc, rest),
            "pick" => finding::picked(alloc, rest),
            "find_gnu" => finding::in_gnu(alloc, &mut words),
            "find_sysv" => finding::in_sysv(alloc, &mut words),
            "decimal_number" => turns::number(alloc, rest),
            "read_turns" => turns::turns(alloc, &mut words),
            "instruction" => instructions::instruction(alloc, &mut words),
            "compute" => instructions::computed(alloc, &mut words),
            "all_free" => pages::all_free(alloc, &mut self.regions),
            "copied" => pages::copied(alloc, &mut self.regions),
            "reserve" => pages::reserve(alloc, &mut self.regions, &mut words),
            "reserve_at" => pages::reserve_at(alloc, &mut self.regions, &mut words),
            "reserve_and_release" => pages::borrow(alloc, &mut self.regions, &mut words),
            "words" => asm_lines::words_of(alloc, rest),
            "parse" => asm_lines::verdict_of(alloc, rest),
            "event" => event_lines::written(alloc, rest),
            "line" => event_lines::kind_of(alloc, rest),
            "view" => views::shown(alloc, rest),
            _ => Err(Fault::Unclear),
        }
    }
}
