//! The words of the command line.

ghost use Rattle.std.specs.Prelude.{IfNone, IfSome};
ghost use Rattle.clap.specs.Matches.{found_of};
ghost use Rattle.ldso_view.specs.Asked.{IsAsked, NamesNoForm};

use clap::{Arg, ArgAction, ArgMatches, Command};
use std::alloc::{AllocError, Global};
use trace_view::Form;

/// The forms, as they are asked for.
const FORMS: [&str; 5] = ["text", "said", "json", "dot", "svg"];

/// What the words ask for.
#[derive(Clone, Copy)]
pub struct Asked<'a> {
    pub form: Form,
    /// From where the paths of objects are found.
    pub folder: Option<&'a str>,
    /// Where the journal is, if not on standard input.
    pub journal: Option<&'a str>,
}

impl<'a> Asked<'a> {
    /// What the matches of words ask for; none where no form has the word that they give for it.
    pub fn of(matches: &ArgMatches<'a>) -> Option<Self>
        ensures asked { IfSome result (IsAsked (found_of matches.now)) }
        ensures none { IfNone result (NamesNoForm (found_of matches.now)) }
    {
        Some(Asked {
            form: Form::named(matches.get_str("form")?)?,
            folder: matches.get_str("lib"),
            journal: matches.get_str("journal"),
        })
    }
}

/// The words that are taken.
///
/// # Errors
///
/// Want of memory.
pub fn command<'a>(alloc: Global) -> Result<Command<'a>, AllocError> {
    let form = Arg::new(alloc, "form")
        .required(true)
        .value_parser(FORMS.as_slice())
        .help("What the journal is written as");
    let folder = Arg::new(alloc, "lib")
        .long("lib")
        .value_name("FOLDER")
        .action(ArgAction::Set)
        .help("The folder in which ldso ran: names of symbols come from its files");
    let journal = Arg::new(alloc, "journal").help(
        "A file with the journal; standard input without",
    );
    Command::new(alloc, "ldso_view")
        .about("Shows the journal that `ldso turns`, or `ldso run --trace`, printed")
        .arg(form)?
        .arg(folder)?
        .arg(journal)
}
