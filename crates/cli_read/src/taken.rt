//! Words that are of a form, and their matches.

ghost use Rattle.std.specs.Prelude.{◌≡◌, ◌<◌, IfErr, IfOk, drop, length};
ghost use Rattle.clap.specs.Matches.{found_of};
ghost use Rattle.cli_read.specs.Judged.{IsOf};
ghost use Rattle.cli_read.specs.Matched.{IsMatched};
ghost use Rattle.cli_read.specs.declared.fault.WordsFault.TheVariants.{Memory, Usage};
ghost use Rattle.cli_read.specs.SaidWords.Words.{texts};

use crate::arguments::arguments_of;
use crate::clap_words::{Form, words_are_taken};
use crate::fault::WordsFault;
use crate::judged::are_of;
use clap::ArgMatches;
use clap::error::ErrorKind;
use std::alloc::Global;

/// The matches of words, of which the first is the command's own.
///
/// # Errors
///
/// `Usage` where the words behind it aren't of this form, or want of memory.
pub(crate) fn taken<'a>(
    alloc: Global,
    form: Form,
    words: &'a [String],
) -> Result<ArgMatches<'a>, WordsFault>
    requires { 0 < length words.now }
    ensures ok { IfOk result (λ m. IsMatched form (drop 1 (texts words.entry.now)) (found_of m)) }
    ensures usage { IfErr result (λ e. e ≡ Usage → IsOf form (drop 1 (texts words.entry.now)) → ⊥) }
    ensures memory { IfErr result (λ e. e ≡ Memory → IsOf form (drop 1 (texts words.entry.now))) }
{
    words_are_taken();
    if !are_of(form, &words[1..]) {
        return Err(WordsFault::Usage);
    }
    let command = arguments_of(alloc, form)?;
    match command.try_get_matches_from(words) {
        Ok(matches) => Ok(matches),
        Err(error) => match error.kind() {
            ErrorKind::OutOfMemory => Err(WordsFault::Memory),
            // The words are taken.
            _ => unreachable!(),
        },
    }
}
