//! The first word of a command.

ghost use Rattle.std.specs.Prelude.{◌≡◌, Some};
ghost use Rattle.cli_read.specs.Verbs.{form_of, verb_of};

use crate::clap_words::Form;

/// What a command's own word asks for.
#[derive(Clone, Copy, PartialEq, Eq)]
pub(crate) enum Verb {
    Bind,
    Turns,
    Run,
    Assemble,
    Dump,
    Check,
    Generate,
}

/// What a word asks for, if it is a command's own.
pub(crate) fn verb_of(word: &str) -> Option<Verb>
    ensures { result ≡ verb_of word.now }
{
    match word {
        "bind" => Some(Verb::Bind),
        "turns" => Some(Verb::Turns),
        "run" => Some(Verb::Run),
        "asm" => Some(Verb::Assemble),
        "dump" => Some(Verb::Dump),
        "check" => Some(Verb::Check),
        "gen" => Some(Verb::Generate),
        _ => None,
    }
}

impl Verb {
    /// What stands behind the word.
    pub(crate) fn form(self) -> Form
        ensures { result ≡ form_of self }
    {
        match self {
            Verb::Bind => Form::Bind,
            Verb::Turns => Form::Turns,
            Verb::Run => Form::Run,
            Verb::Assemble | Verb::Dump => Form::Path,
            Verb::Check => Form::Check,
            Verb::Generate => Form::Number,
        }
    }
}
