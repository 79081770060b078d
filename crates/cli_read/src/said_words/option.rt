//! Options, and the words that they take.

ghost use Rattle.std.specs.Prelude.{◌≡◌, option_and_then, option_map};
ghost use Rattle.std.specs.Option.{option_copied};
ghost use Rattle.cli_words.specs.Options.{has_dash, has_value, is_option, name_of, option_in};
ghost use Rattle.cli_read.specs.SaidWords.Words.{behind_value, joined_front, joined_value, option_at, taking_front, taking_next, texts};

use cli_words::Switch;

/// How an option is written.
fn name_of(switch: Switch) -> &'static str
    ensures { result.now ≡ name_of switch }
{
    match switch {
        Switch::Lib => "--lib",
        Switch::Preload => "--preload",
        Switch::Harts => "--harts",
        Switch::Fuel => "--fuel",
        Switch::Now => "--now",
        Switch::Trace => "--trace",
    }
}

/// Whether the option has a value, or stands alone.
pub(crate) fn has_value(switch: Switch) -> bool
    ensures { result ≡ has_value switch }
{
    match switch {
        Switch::Lib | Switch::Preload | Switch::Harts | Switch::Fuel => true,
        Switch::Now | Switch::Trace => false,
    }
}

fn has_dash(word: &[u8]) -> bool
    ensures { result ≡ has_dash word.now }
{
    match word.first() {
        Some(byte) => *byte == b'-',
        None => false,
    }
}

/// Whether the word is read as an option.
pub(crate) fn is_option(word: &[u8]) -> bool
    ensures { result ≡ is_option word.now }
{
    has_dash(word) && word.len() > 1
}

/// The option that is called so, of those that a command has.
fn option_in(known: &[Switch], name: &str) -> Option<Switch>
    ensures { result ≡ option_in known.now name.now }
{
    known
        .iter()
        .copied()
        .find(|switch| name_of(*switch) == name)
}

/// The words behind a value, which has no dash.
fn behind_value(words: &[String]) -> Option<&[String]>
    ensures { option_map (λ rest. texts rest.now) result ≡ behind_value (texts words.now) }
{
    match words {
        [value, rest @ ..] if !has_dash(value.as_bytes()) => Some(rest),
        _ => None,
    }
}

/// What stands before the first equals sign of a word, if it has one.
fn joined_front(word: &str) -> Option<&str>
    ensures { option_copied result ≡ joined_front word.now }
{
    match word.split_once('=') {
        Some((name, _value)) => Some(name),
        None => None,
    }
}

/// What stands behind the first equals sign of a word, if it has one.
pub(crate) fn joined_value(word: &str) -> Option<&str>
    ensures { option_copied result ≡ joined_value word.now }
{
    match word.split_once('=') {
        Some((_name, value)) => Some(value),
        None => None,
    }
}

/// An option whose value is joined to it, and the words behind.
fn with_own_value<'a>(switch: Option<Switch>, rest: &'a [String]) -> Option<(Switch, &'a [String])>
    ensures { option_map (λ r. (r.0, texts r.1.now)) result ≡ option_and_then (taking_front (texts rest.now)) switch }
{
    let switch = switch?;
    if has_value(switch) {
        Some((switch, rest))
    } else {
        None
    }
}

/// An option whose value is the next word, if it has one, and the words behind.
fn with_next_value<'a>(switch: Option<Switch>, rest: &'a [String]) -> Option<(Switch, &'a [String])>
    ensures { option_map (λ r. (r.0, texts r.1.now)) result ≡ option_and_then (taking_next (texts rest.now)) switch }
{
    let switch = switch?;
    if has_value(switch) {
        Some((switch, behind_value(rest)?))
    } else {
        Some((switch, rest))
    }
}

/// The option that a word is, and the words behind it and its value.
#[tactic(auto, unfolding(crate::specs::SaidWords::Words::option_at))]
pub(crate) fn option_at<'a>(
    known: &[Switch],
    word: &str,
    rest: &'a [String],
) -> Option<(Switch, &'a [String])>
    ensures { option_map (λ r. (r.0, texts r.1.now)) result ≡ option_at known.now word.now (texts rest.now) }
{
    match joined_front(word) {
        Some(name) => with_own_value(option_in(known, name), rest),
        None => with_next_value(option_in(known, word), rest),
    }
}
