//! Words behind a command, judged.

ghost use Rattle.std.specs.Prelude.{IsTrue, ◌↔◌};
ghost use Rattle.std.specs.Option.{option_copied};
ghost use Rattle.cli_read.specs.Judged.{HasNumber, SaidValues, IsOf};
ghost use Rattle.cli_read.specs.SaidWords.Words.{texts};

use crate::arguments::{names_of, options_of};
use crate::clap_words::Form;
use crate::said_words::Said;
use crate::values::{are_folders, are_harts, are_preloads, fuel_of, number_of};
use cli_words::words_say_once;

/// Whether each option has a value that it may have.
fn have_values(said: &Said<'_>) -> bool
    ensures { IsTrue result ↔ SaidValues said.entry.now }
{
    are_folders(said.lib)
        && are_preloads(said.preload)
        && are_harts(said.harts)
        && fuel_of(said.fuel).is_some()
}

/// Whether the first of the other words is a number, where the form has one.
fn has_number(form: Form, first: Option<&str>) -> bool
    ensures { IsTrue result ↔ HasNumber form (option_copied first.entry) }
{
    match (form, first) {
        (Form::Number, Some(text)) => number_of(text).is_some(),
        (Form::Number, None) => false,
        _ => true,
    }
}

/// Whether words behind a command are of its form: they say its options, each at most once and with a value
/// that it may have, and as many other words as it has.
pub(crate) fn are_of(form: Form, words: &[String]) -> bool
    ensures { IsTrue result ↔ IsOf form (texts words.now) }
{
    words_say_once();
    match Said::of(options_of(form), words) {
        None => false,
        Some(said) => {
            said.others == names_of(form).len()
                && have_values(&said)
                && has_number(form, said.first)
        }
    }
}
