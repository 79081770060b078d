//! What holds of every command.

ghost use Rattle.std.specs.Prelude.{◌≡◌, ℕ, List, Some};
ghost use Rattle.ld_base.specs.declared.linking.File.{File};
ghost use Rattle.cli_words.specs.declared.command.Check.{Check};
ghost use Rattle.cli_words.specs.declared.command.Command.{Command};
ghost use Rattle.ldso_cli.specs.Check.{CheckComes};
ghost use Rattle.ldso_cli.specs.Command.{Comes, NoReadFails, Prints};
ghost use Rattle.ldso_cli.specs.Ends.{ComeToOne, IsUndisturbed, RunAt};
ghost use Rattle.ldso_cli.specs.Laws.{AnswersAreHistories, AnswersComplete};
ghost use Rattle.ldso_cli.specs.Outside.{LibraryAt, handed_to};
ghost use Rattle.ldso_cli.specs.declared.outcome.End.{End};

use cli_words::words_are_one_command;
use history_calls::{one_startup, served_calls_are_legal};
use history_journal::accepted_object;
use lib_gen::one_set;
use library_source::Sink;
use scope_rule::one_outcome;
use trace_check::one_verdict;
use trace_text::one_run_end;
use world_laws::{
    harts_follow, journals_are_true, moments_are_true, runs_are_one, runs_are_whole,
    runs_have_journals,
};
use world_threads::slots_end;
use world_turns::runs_stay_sound;

/// The words and the files decide what a call of the command comes to, where the library tells its
/// files, neither it nor the sink fails, and memory suffices, in a run that it makes, too: one status,
/// one text, and one record of the run. For `gen` the words alone decide it.
///
/// So it is of the commands that can be done, whose runs follow a written schedule. Of harts on threads it
/// would be false: which of them comes first is written nowhere.
pub fn one_answer<K: Sink, J: Sink>()
    ensures { (words : List (List ℕ)) (files : List File) (first second : RunAt) (old new : K) (old' new' : J) →
        IsUndisturbed (handed_to K.writes old new) words files first → IsUndisturbed (handed_to J.writes old' new') words files second →
        ComeToOne (handed_to K.writes old new) (handed_to J.writes old' new') first second }
{
    words_are_one_command();
    one_outcome();
    asm_layout::one_answer();
    one_set();
    runs_are_one();
    one_startup();
    accepted_object();
    one_run_end();
    one_verdict();
}

/// Where no read fails, the files decide how `bind`, `dump` and `asm` end.
pub fn one_end()
    ensures { (command : Command) (files : List File) (before after before' after' : LibraryAt) (first second : End) →
        Comes command before after files first → NoReadFails first → Comes command before' after' files second → NoReadFails second → first ≡ second }
{
    one_outcome();
    asm_layout::one_answer();
}

/// Over the same files they print one text at an end.
pub fn one_text()
    ensures { (command : Command) (files : List File) (end : End) (first second : List ℕ) →
        Prints command files end first → Prints command files end second → first ≡ second }
{
    one_outcome();
    asm_layout::one_answer();
}

/// Over the same files, where no read fails, `check` ends one way and prints one text.
pub fn one_judgement()
    ensures { (check : Check) (files : List File) (before after before' after' : LibraryAt) (first second : End) (text text' : List ℕ)
        → before.files ≡ Some files → before'.files ≡ Some files → CheckComes check before after first text → NoReadFails first
        → CheckComes check before' after' second text' → NoReadFails second → (first ≡ second) × (text ≡ text') }
{
    one_verdict();
}

/// What an answer keeps of a run is one legal history, over the files as its library tells them. Where the
/// program ran it is whole, and at each moment of the run choices, blocks of thread-local storage and closings
/// are what they should be; so are slots, at each moment on one thread, and at the end on threads. A program
/// that may start over files that are told runs, where no read fails.
pub(crate) fn answers_are_histories()
    ensures { AnswersAreHistories }
{
    accepted_object();
    served_calls_are_legal();
    runs_stay_sound();
    runs_have_journals();
    harts_follow();
    runs_are_whole();
    moments_are_true();
    journals_are_true();
    slots_end();
    one_startup();
}

/// Where the files have all that a command asks for, and no read fails, it does what it was asked.
pub(crate) fn answers_complete()
    ensures { AnswersComplete }
{
    one_outcome();
    asm_layout::one_answer();
    one_startup();
    one_set();
    one_verdict();
}
