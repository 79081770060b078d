//! Harts and the linker's keeper over guest memory in atomic words, and what they have to find.
//!
//! The calls of harts stand in plain files, which the words of the program name: docs/TESTING.md says
//! how to write one. Two harts on threads that add to one word come after them, and then grants of a slot.
#![tactic(auto)]

mod bind_tests;
mod word_tests;

use bind_tests::raced;
use std::{env, io};
use word_tests::{added, said};

fn main(rt: HostRuntime) -> io::Result<()> {
    let alloc = rt.alloc();
    for path in env::args(&rt)?.skip(1) {
        let text = said(&rt, alloc, &path)?;
        print!(rt; "{text}")?;
    }
    let sum = added(&rt, alloc)?;
    println!(rt; "two harts on threads, 2000 additions each: {sum:?}")?;
    let found = raced(alloc)?;
    print!(rt; "{found}")
}
