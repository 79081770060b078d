//! Runs the examples of the commands, and says which of them don't hold.
//!
//! The examples stand in plain files, which the words of the program name: docs/TESTING.md says how
//! to write one. Each is a command over files in memory, with the text that it has to write, and is
//! run through the top call, `ldso_cli::ldso`. For each file one line says that all its examples hold,
//! or how many do; each that doesn't is shown before it, with the text that it gives.
#![tactic(auto)]

mod book;
mod command;
mod layout;
mod numbers;
mod wanted;

use book::Book;
use std::{env, io};
use test_file::text_at;

fn main(rt: HostRuntime) -> io::Result<()> {
    for path in env::args(&rt)?.skip(1) {
        let text = match text_at(&rt, rt.alloc(), path.as_str())? {
            Some(text) => Book::new(rt.alloc(), path.as_str())?.read(&rt, text.as_str())?,
            None => format!(in rt.alloc(); "{path}: can't be read\n")?,
        };
        print!(rt; "{text}")?;
    }
    Ok(())
}
