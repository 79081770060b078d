//! Calls of public functions over plain data, and the values that they have to give: names, symbols
//! that are found, instructions, pages, schedules, lines of sources and of events.
//!
//! The lines stand in plain files, which the words of the program name: docs/TESTING.md says how to
//! write one. For each file one line says that all its calls hold, or how many do; each that doesn't is
//! shown before it, with what it gives.
#![tactic(auto)]

mod asm_lines;
mod calls;
mod event_lines;
mod finding;
mod hashes;
mod instructions;
mod pages;
mod turns;
mod views;

use calls::PlainCalls;
use std::{env, io};
use test_file::{Sheet, text_at};

fn main(rt: HostRuntime) -> io::Result<()> {
    let alloc = rt.alloc();
    for path in env::args(&rt)?.skip(1) {
        let text = match text_at(&rt, alloc, path.as_str())? {
            Some(text) => {
                Sheet::new(alloc, PlainCalls::new(alloc)).read(path.as_str(), text.as_str())?
            }
            None => format!(in alloc; "{path}: can't be read\n")?,
        };
        print!(rt; "{text}")?;
    }
    Ok(())
}
