//! `gen`: a set of libraries that a number makes, and its run.

ghost use Rattle.std.specs.Prelude.{◌≡◌, IfOk};
ghost use Rattle.std.specs.String.{string_bytes};
ghost use Rattle.ldso_cli.specs.End.{kept_end};
ghost use Rattle.ldso_cli.specs.Generate.{GenComes, exit_code, set_cause, set_line, set_setup, set_text};

use crate::answer::Answer;
use crate::outcome::{Cause, End};
use crate::play::{Played, last_line, play, run_cause};
use history_calls::Setup;
use ld_base::{Bytes, DlFault, Name, Names};
use lib_gen::{SetLibrary, library_set, summary_line};
use std::alloc::{AllocError, Global};
use trace_text::RunEnd;
use world_turns::Turns;

/// How many turns the program has.
const FUEL: u64 = 1_000_000;

/// What is asked of the run of a set: its program's libraries are looked for in the folder `lib`.
fn set_setup(alloc: Global) -> Result<Setup, AllocError>
    ensures { IfOk result (λ setup. setup ≡ set_setup) }
{
    let mut folders = Names::new(alloc);
    folders.push(Name::new(alloc, b"lib")?)?;
    Ok(Setup {
        program: Name::new(alloc, b"gen")?,
        folders,
        preload: Names::new(alloc),
        bind_now: false,
        harts: Names::new(alloc),
        fuel: FUEL,
    })
}

/// The code with which the program exited, if it did.
fn exit_code(ended: &Result<RunEnd, DlFault>) -> Option<u64>
    ensures { result ≡ exit_code ended.now }
{
    match ended {
        Ok(RunEnd::Exited(code)) => Some(*code),
        Ok(RunEnd::Ended(_, _)) | Err(_) => None,
    }
}

/// The last line: where the program exited, the status is 0.
fn set_line(alloc: Global, ended: &Result<RunEnd, DlFault>) -> Result<String, AllocError>
    ensures { IfOk result (λ line. string_bytes line ≡ set_line ended.now) }
{
    match exit_code(ended) {
        Some(_) => RunEnd::Exited(0).line(alloc),
        None => last_line(alloc, ended),
    }
}

/// What is printed of the run of a set.
fn set_text(alloc: Global, number: u32, played: &Played) -> Result<Bytes, AllocError>
    ensures { IfOk result (λ text. text ≡ set_text number played.now.ended played.now.left.journal.events) }
{
    let code = exit_code(&played.ended);
    let line = set_line(alloc, &played.ended)?;
    let mut text = summary_line(alloc, number, played.left.counts, code)?;
    text.push_str(line.as_str())?;
    Ok(Bytes::from(text.into_bytes()))
}

/// Why the command ends.
fn set_cause(ended: Result<RunEnd, DlFault>) -> Cause
    ensures { result ≡ set_cause ended }
{
    match exit_code(&ended) {
        Some(_) => Cause::Done,
        None => run_cause(ended),
    }
}

/// The answer of a set's run that is over.
fn told(alloc: Global, number: u32, played: Played) -> Result<Answer, AllocError>
    ensures end { IfOk result (λ answer. answer.end ≡ kept_end (set_cause played.ended) played.left) }
    ensures text { IfOk result (λ answer. answer.text ≡ set_text number played.ended played.left.journal.events) }
{
    let text = set_text(alloc, number, &played)?;
    let Played { ended, left } = played;
    let end = End {
        cause: set_cause(ended),
        kept: Some(left),
        trails: None,
    };
    Ok(Answer { end, text })
}

/// Makes the set of a number, runs its program on one thread, and gives the summary of the run.
pub(crate) fn generate(alloc: Global, number: u32) -> Result<Answer, AllocError>
    ensures comes { IfOk result (λ answer. GenComes number answer.end answer.text) }
{
    let files = library_set(alloc, number)?;
    let mut library = SetLibrary::new(alloc, files);
    let setup = set_setup(alloc)?;
    let in_order = Turns::new(alloc);
    let played = play(alloc, &setup, &in_order, &mut library)?;
    told(alloc, number, played)
}
