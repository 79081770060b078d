//! What stands at the front of words.

ghost use Rattle.std.specs.Prelude.{◌≡◌, option_map, slice_get};
ghost use Rattle.std.specs.Option.{option_copied};
ghost use Rattle.cli_read.specs.SaidWords.Words.{read_front, texts, value_at};

use crate::said_words::option::{has_value, is_option, joined_value, option_at};
use cli_words::Switch;

/// What stands at the front of words.
#[derive(Clone, Copy)]
pub(crate) enum Front {
    /// The end of the options.
    End,
    /// An option, with its value if it has one.
    Option(Switch),
    /// Another word.
    Word,
}

/// What a word is, and the words behind it and its value.
pub(crate) fn read_front<'a>(
    known: &[Switch],
    word: &str,
    rest: &'a [String],
) -> Option<(Front, &'a [String])>
    ensures { option_map (λ r. (r.0, texts r.1.now)) result ≡ read_front known.now word.now (texts rest.now) }
{
    if word == "--" {
        return Some((Front::End, rest));
    }
    if !is_option(word.as_bytes()) {
        return Some((Front::Word, rest));
    }
    let (switch, rest) = option_at(known, word, rest)?;
    Some((Front::Option(switch), rest))
}

/// The first of words.
pub(crate) fn first_text(words: &[String]) -> Option<&str>
    ensures { option_copied result ≡ slice_get (texts words.now) 0 }
{
    match words.first() {
        Some(word) => Some(word.as_str()),
        None => None,
    }
}

/// The value of an option that stands at a word, if it has one: what is joined to it, or the next word.
pub(crate) fn value_at<'a>(switch: Switch, word: &'a str, rest: &'a [String]) -> Option<&'a str>
    ensures { option_copied result ≡ value_at switch word.now (texts rest.now) }
{
    if !has_value(switch) {
        return None;
    }
    match joined_value(word) {
        Some(value) => Some(value),
        None => first_text(rest),
    }
}
