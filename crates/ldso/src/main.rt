//! The program `ldso`: the words it is given, the files of the system, and standard output.
//!
//! It hands them to the top call, `ldso_cli::ldso`, and ends with its status.
#![tactic(auto)]

use ldso_cli::{Cause, End};
use library_source::{FolderLibrary, IoSink};
use std::alloc::{AllocError, Global};
use std::process::ExitCode;
use std::rt::Env;
use std::{env, io};

/// The words after the program's name. Words that aren't text are no command; none stand for them.
fn words_of<R: Env + Alloc<A = Global>>(rt: &R, alloc: Global) -> Result<Vec<String>, AllocError> {
    let mut words = Vec::new(alloc);
    match env::args(rt) {
        Ok(arguments) => {
            for word in arguments.skip(1) {
                words.push(word)?;
            }
            Ok(words)
        }
        Err(error) if error.kind() == io::ErrorKind::OutOfMemory => Err(AllocError),
        Err(_) => Ok(words),
    }
}

fn main(rt: HostRuntime) -> ExitCode {
    let alloc = rt.alloc();
    let Ok(words) = words_of(&rt, alloc) else {
        return ExitCode::from(End::bare(Cause::Memory).status());
    };
    let Ok(files) = rt.clone() else {
        return ExitCode::from(End::bare(Cause::Memory).status());
    };
    let library = FolderLibrary::new(files, alloc);
    let mut out = IoSink::new(io::writer(&rt));
    let (outcome, _library) = ldso_cli::ldso(&rt, alloc, words, library, &mut out);
    ExitCode::from(outcome.status)
}
