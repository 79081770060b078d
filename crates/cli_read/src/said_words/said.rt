//! What words say.

ghost use Rattle.std.specs.Prelude.{◌≡◌, ◌+◌, ◌<◌, ◌^◌, if◌then◌else◌, IfSome, None, Some, length, slice_get};
ghost use Rattle.std.specs.Option.{option_copied, option_or};
ghost use Rattle.cli_read.specs.SaidWords.Said.{IsSaid, IsUnsaid, has_option, with_option, with_word};
ghost use Rattle.cli_read.specs.SaidWords.Words.{texts};

use crate::said_words::front::{Front, first_text, read_front, value_at};
use cli_words::Switch;

/// What words behind a command say: the values of its options, and the other words.
#[derive(Clone, Copy)]
pub struct Said<'a> {
    /// The value of `--lib`, where it stands.
    pub lib: Option<&'a str>,
    /// The value of `--preload`.
    pub preload: Option<&'a str>,
    /// The value of `--harts`.
    pub harts: Option<&'a str>,
    /// The value of `--fuel`.
    pub fuel: Option<&'a str>,
    /// Whether `--now` stands.
    pub now: bool,
    /// Whether `--trace` stands.
    pub trace: bool,
    /// How many other words there are.
    pub others: usize,
    /// The first of them.
    pub first: Option<&'a str>,
}

impl<'a> Said<'a> {
    /// Whether the option stands.
    fn has(&self, switch: Switch) -> bool
        ensures { result ≡ has_option self.entry.now switch }
    {
        match switch {
            Switch::Lib => self.lib.is_some(),
            Switch::Preload => self.preload.is_some(),
            Switch::Harts => self.harts.is_some(),
            Switch::Fuel => self.fuel.is_some(),
            Switch::Now => self.now,
            Switch::Trace => self.trace,
        }
    }

    /// With an option, too, and its value if it has one; none where it stands already.
    fn with_option(self, switch: Switch, value: Option<&'a str>) -> Option<Self>
        ensures { result ≡ if has_option self.entry switch then None else Some (with_option self.entry switch value.entry) }
    {
        if self.has(switch) {
            return None;
        }
        Some(match switch {
            Switch::Lib => Said { lib: value, ..self },
            Switch::Preload => Said {
                preload: value,
                ..self
            },
            Switch::Harts => Said {
                harts: value,
                ..self
            },
            Switch::Fuel => Said {
                fuel: value,
                ..self
            },
            Switch::Now => Said { now: true, ..self },
            Switch::Trace => Said {
                trace: true,
                ..self
            },
        })
    }

    /// With another word, too.
    fn with_word(self, word: &'a str) -> Self
        requires { self.others + 1 < 2 ^ 64 }
        ensures { result ≡ with_word self.entry word.entry }
    {
        Said {
            others: self.others + 1,
            first: self.first.or(Some(word)),
            ..self
        }
    }

    /// With other words, too.
    fn with_words(self, words: &'a [String]) -> Self
        requires { self.others + length words.now < 2 ^ 64 }
        ensures kept { result ≡ record self.entry { others = self.entry.others + length words.entry.now; first = result.first } }
        ensures first { option_copied result.first ≡ option_or (option_copied self.entry.first) (slice_get (texts words.entry.now) 0) }
    {
        let first = first_text(words);
        Said {
            others: self.others + words.len(),
            first: self.first.or(first),
            ..self
        }
    }

    /// What words behind a command say, where they say options of these, each at most once, and other words;
    /// none where they say something else.
    pub fn of(known: &[Switch], words: &'a [String]) -> Option<Self>
        ensures some { IfSome result (IsSaid known.now (texts words.entry.now)) }
        ensures none { result ≡ None → IsUnsaid known.now (texts words.entry.now) }
    {
        let mut said = Said {
            lib: None,
            preload: None,
            harts: None,
            fuel: None,
            now: false,
            trace: false,
            others: 0,
            first: None,
        };
        let mut rest = words;
        while let Some((word, more)) = rest.split_first() {
            let (front, behind) = read_front(known, word, more)?;
            said = match front {
                Front::End => return Some(said.with_words(behind)),
                Front::Word => said.with_word(word),
                Front::Option(switch) => said.with_option(switch, value_at(switch, word, more))?,
            };
            rest = behind;
        }
        Some(said)
    }
}
