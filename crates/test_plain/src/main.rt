//! Real files and writers, which no contract tells about, and what they have to give.
//!
//! The lines stand in plain files, which the words of the program name: docs/TESTING.md says how to
//! write one.
#![tactic(auto)]

mod calls;

use calls::FileCalls;
use std::{env, io};
use test_file::said_of;

fn main(rt: HostRuntime) -> io::Result<()> {
    let alloc = rt.alloc();
    for path in env::args(&rt)?.skip(1) {
        let calls = FileCalls::new(rt.clone()?, alloc);
        let text = said_of(&rt, alloc, path.as_str(), calls)?;
        print!(rt; "{text}")?;
    }
    Ok(())
}
