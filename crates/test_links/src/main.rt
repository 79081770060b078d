//! Calls of the functions that link, over plain data, and the values that they have to give: matching
//! within an object, searches and loads beside other objects, graphs of objects, thread-local storage,
//! images.
//!
//! The lines stand in plain files, which the words of the program name: docs/TESTING.md says how to
//! write one. For each file one line says that all its calls hold, or how many do; each that doesn't is
//! shown before it, with what it gives.
#![tactic(auto)]

mod calls;
mod graphs;
mod images;
mod lists;
mod loads;
mod matching;
mod objects;
mod scene;
mod tls;

use calls::LinkCalls;
use std::{env, io};
use test_file::said_of;

fn main(rt: HostRuntime) -> io::Result<()> {
    let alloc = rt.alloc();
    for path in env::args(&rt)?.skip(1) {
        let calls = LinkCalls::new(alloc);
        let text = said_of(&rt, alloc, path.as_str(), calls)?;
        print!(rt; "{text}")?;
    }
    Ok(())
}
