//! The top call.

ghost use Rattle.std.specs.Prelude.{◌≡◌, ◌≤◌, IfOk, MatchResult};
ghost use Rattle.cli_read.specs.SaidWords.Words.{texts};
ghost use Rattle.ldso_cli.specs.Asked.{OfAsked, OfEachAsked};
ghost use Rattle.ldso_cli.specs.Command.{WordsAnswer, LeavesLibrary};
ghost use Rattle.ldso_cli.specs.Complete.{Completes};
ghost use Rattle.ldso_cli.specs.End.{end_of};
ghost use Rattle.ldso_cli.specs.Ends.{WordsEnd, IsCaused, IsUnanswered, Written};
ghost use Rattle.ldso_cli.specs.Headline.{Headline};
ghost use Rattle.ldso_cli.specs.Outside.{handed_to, library_at, sink_at};
ghost use Rattle.ldso_cli.specs.Status.{status_of};

use crate::answer::{Answer, usage};
use crate::asm::asm;
use crate::bind::bind;
use crate::check::check;
use crate::dump::dump;
use crate::generate::generate;
use crate::law::{answers_are_histories, answers_complete};
use crate::outcome::{Cause, End, Outcome};
use crate::threads::run;
use crate::turns::turns;
use cli_read::{WordsFault, read_command};
use cli_words::{Command, words_are_one_command};
use library_source::{Library, Sink, WriteError, put_all};
use std::alloc::{AllocError, Global};
use std::sync::Wait;
use std::thread::Threads;

/// What the words come to.
fn answer<R: Threads + Wait + Sync, L: Library + Send + Drop>(
    rt: &R,
    alloc: Global,
    words: &[String],
    library: L,
) -> (Result<Answer, AllocError>, L)
    ensures answers { OfAsked (texts words.now) (λ command. IfOk result.0 (λ answer. WordsAnswer command (library_at L.files L.faults L.misses library)
        (library_at L.files L.faults L.misses result.1) answer.end answer.text)) }
    ensures untouched { OfAsked (texts words.now) (λ command. LeavesLibrary command library result.1) }
    ensures files { L.files result.1 ≡ L.files library }
    ensures faults { L.faults library ≤ L.faults result.1 }
    ensures misses { L.misses library ≤ L.misses result.1 }
{
    words_are_one_command();
    let mut library = library;
    match read_command(alloc, words) {
        Ok(Command::Bind(command)) => (bind(alloc, command, &mut library), library),
        Ok(Command::Dump(path)) => (dump(alloc, path, &mut library), library),
        Ok(Command::Assemble(path)) => (asm(alloc, path, &mut library), library),
        Ok(Command::Turns(command)) => (turns(alloc, &command, &mut library), library),
        Ok(Command::Run(command)) => run(rt, alloc, &command, library),
        Ok(Command::Check(command)) => check(alloc, command, library),
        Ok(Command::Generate(number)) => (generate(alloc, number), library),
        Err(WordsFault::Usage) => (usage(alloc), library),
        Err(WordsFault::Memory) => (Err(AllocError), library),
    }
}

/// Writes the answer, and says how the command ends.
fn write_answer<K: Sink>(out: &mut K, answer: Result<Answer, AllocError>) -> End
    ensures written { MatchResult answer
        (λ a. Written (handed_to K.writes out.old out.new) a.end a.text (sink_at K.taken K.faults out.old) (sink_at K.taken K.faults out.new) result)
        (λ _. IsUnanswered (handed_to K.writes out.old out.new) (sink_at K.taken K.faults out.old) (sink_at K.taken K.faults out.new) result) }
    ensures faults { K.faults out.old ≤ K.faults out.new }
{
    match answer {
        Err(AllocError) => End::bare(Cause::Memory),
        Ok(answer) => match put_all(out, answer.text.as_slice()) {
            Ok(()) => answer.end,
            Err(WriteError::Failed) => answer.end.with_cause(Cause::WriteFault),
            Err(WriteError::Memory) => answer.end.with_cause(Cause::Memory),
        },
    }
}

/// Runs the command that the words are: reads what it asks for from the library, writes its text to
/// the sink, and says how it ended. The library is handed back.
///
/// Where the words are no command the cause is `Usage`. `bind` ends with `Done`, or with the one
/// refusal that stops it, which comes in this order: of finding and reading the program and what it
/// needs, breadth-first; of a version that isn't there; of a reference without a definition. `dump`
/// ends with `Done` where the file is accepted as a program, and else with its refusal. `asm` ends with
/// `Done` where the source denotes an object, whose bytes it writes alone, and else with the line that is
/// refused and the cause. `turns` ends with the first refusal of startup, or with how the run by its
/// schedule ended; it writes the run's journal, and what the run left is kept beside the end. A schedule
/// that is none of so many harts is a `Usage`, too. `run` does so on threads, each hart on one of its own: it
/// keeps what each hart did, too, and writes what the program wrote, or the journal where that is asked for.
/// `check` ends with `Done` where the trace is legal; with the line that is refused, and the cause; or with the
/// refusal of a trace that is missing, can't be read or is too long, or of an object that can't be read.
/// `gen` makes its files itself and reads none of the library; it runs their program as `turns` would, writes
/// a summary of the run, and ends with `Done` where the program exited.
pub fn ldso<R: Threads + Wait + Sync, L: Library + Send + Drop, K: Sink>(
    rt: &R,
    alloc: Global,
    words: Vec<String>,
    library: L,
    out: &mut K,
) -> (Outcome, L)
    // How it ends, the text that it prints then, and how that was written.
    ensures ends { OfAsked (texts words.items) (λ command. WordsEnd (handed_to K.writes out.old out.new)
        command (library_at L.files L.faults L.misses library) (library_at L.files L.faults L.misses result.1)
        (sink_at K.taken K.faults out.old) (sink_at K.taken K.faults out.new) (end_of result.0)) }
    ensures causes { OfEachAsked (texts words.items) (λ command. IsCaused
        command (library_at L.files L.faults L.misses library) (library_at L.files L.faults L.misses result.1)
        (sink_at K.taken K.faults out.old) (sink_at K.taken K.faults out.new) result.0.cause) }
    ensures status { result.0.status ≡ status_of (end_of result.0) }

    // The headline: what is kept of a run is one legal history, true at each of its moments.
    ensures headline { OfEachAsked (texts words.items) (λ command. Headline
        command (library_at L.files L.faults L.misses library) (library_at L.files L.faults L.misses result.1) (end_of result.0)) }

    // Where all that the command asks for is there and nothing fails, it does what it was asked, or memory was wanted.
    ensures complete { OfEachAsked (texts words.items) (λ command. Completes
        command (library_at L.files L.faults L.misses library) (library_at L.files L.faults L.misses result.1)
        (sink_at K.taken K.faults out.old) (sink_at K.taken K.faults out.new) (end_of result.0)) }

    // What the library and the sink are left as.
    ensures untouched { OfAsked (texts words.items) (λ command. LeavesLibrary command library result.1) }
    ensures files { L.files result.1 ≡ L.files library }
    ensures library_faults { L.faults library ≤ L.faults result.1 }
    ensures misses { L.misses library ≤ L.misses result.1 }
    ensures sink_faults { K.faults out.old ≤ K.faults out.new }
{
    words_are_one_command();
    answers_are_histories();
    answers_complete();
    let (answer, library) = answer(rt, alloc, words.as_slice(), library);
    let end = write_answer(out, answer);
    (end.into_outcome(), library)
}
