//! The program `ldso_view`: shows the journal of a run, docs/VIEWER.md.
//!
//! It reads the journal from a file or from standard input, hands it to `trace_view`, and writes the
//! text to standard output. What stops it is said on standard error.
#![tactic(auto)]

mod spelled;
mod stop;
mod words;

use library_source::{FolderLibrary, IoSink, put_all};
use spelled::all_found;
use std::alloc::Global;
use std::io::Read;
use std::process::ExitCode;
use std::{env, fs, io};
use stop::{Stop, usage_stop, words_stop};
use trace_view::{Journal, Members, members_of, read_journal, view};
use words::{Asked, command};

/// The bytes of the journal: of the file that the words name, or of standard input.
fn journal_bytes(rt: &HostRuntime, alloc: Global, path: Option<&str>) -> io::Result<Vec<u8>> {
    let mut bytes = Vec::new(alloc);
    match path {
        Some(path) => fs::open(rt, path)?.read_to_end(&mut bytes)?,
        None => rt.stdin().read_to_end(&mut bytes)?,
    };
    Ok(bytes)
}

/// The objects of a journal, with what their files say where there is a folder to find them from.
fn members_for(
    rt: &HostRuntime,
    alloc: Global,
    journal: &Journal,
    folder: Option<&str>,
) -> Result<Members, Stop> {
    let members = members_of(alloc, journal.steps.as_slice())?;
    let Some(folder) = folder else {
        return Ok(members);
    };
    let mut library = FolderLibrary::new(rt.clone()?, alloc);
    Ok(all_found(alloc, &mut library, folder.as_bytes(), members.as_slice())?)
}

/// Shows what the words ask for.
fn show(rt: &HostRuntime, words: &[String]) -> Result<(), Stop> {
    let alloc = rt.alloc();
    let matches = match command(alloc)?.try_get_matches_from(words) {
        Ok(matches) => matches,
        Err(error) => {
            if error.print(rt).is_err() {
                return Err(Stop::WriteFault);
            }
            return Err(usage_stop(error.kind()));
        }
    };
    let asked = Asked::of(&matches).ok_or(Stop::Usage)?;
    let bytes = journal_bytes(rt, alloc, asked.journal)?;
    let journal = read_journal(alloc, bytes.as_slice())?;
    let members = members_for(rt, alloc, &journal, asked.folder)?;
    let text = view(alloc, asked.form, members.as_slice(), &journal)?;
    let mut out = IoSink::new(io::writer(rt));
    Ok(put_all(&mut out, text.as_slice())?)
}

/// Says on standard error why it stopped, where that can be said.
fn tell(rt: &HostRuntime, stop: Stop) -> io::Result<()> {
    match stop {
        Stop::Usage | Stop::Help => Ok(()),
        Stop::NoEvent(line) => eprintln!(rt; "ldso_view: line {line} is no event"),
        Stop::ReadFault => eprintln!(rt; "ldso_view: the journal can't be read"),
        Stop::WriteFault => eprintln!(rt; "ldso_view: the text can't be written"),
        Stop::Memory => eprintln!(rt; "ldso_view: there is no memory"),
    }
}

/// The program's words.
fn words_of(rt: &HostRuntime) -> Result<Vec<String>, Stop> {
    match env::args(rt) {
        Ok(words) => Ok(words.collect(rt.alloc())?),
        Err(error) => Err(words_stop(&error)),
    }
}

/// Does what the words ask for.
fn run(rt: &HostRuntime) -> Result<(), Stop> {
    let words = words_of(rt)?;
    show(rt, words.as_slice())
}

fn main(rt: HostRuntime) -> io::Result<ExitCode> {
    match run(&rt) {
        Ok(()) => Ok(ExitCode::SUCCESS),
        Err(stop) => {
            // The status says it, too.
            let _ = tell(&rt, stop);
            Ok(ExitCode::from(stop.status()))
        }
    }
}
