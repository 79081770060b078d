//! What is found of words that are taken.

ghost use Rattle.std.specs.Prelude.{◌≡◌, IfOk, IsSome, Some, codes};
ghost use Rattle.clap.specs.Matches.{first_value, found_of};
ghost use Rattle.cli_read.specs.Judged.{IsSomeNumber};
ghost use Rattle.cli_read.specs.Found.{FoundBind, FoundCheck, FoundCommand, FoundNumber, FoundRun, FoundSetup, FoundTurns};
ghost use Rattle.cli_read.specs.Found.{HasBind, HasCommand, HasRun, HasSetup, HasTurns};
ghost use Rattle.cli_read.specs.Verbs.{verb_for};

use crate::values::{fuel_of, number_of, parts_in};
use crate::verb::Verb;
use clap::ArgMatches;
use cli_words::{Bind, Check, Command, Run, Turns};
use history_calls::Setup;
use ld_base::Name;
use std::alloc::{AllocError, Global};

/// The word that has this name, which is there.
fn word_of(alloc: Global, matches: &ArgMatches<'_>, name: &str) -> Result<Name, AllocError>
    requires { IsSome (first_value (found_of matches.now) name.now) }
    ensures { IfOk result (λ text. first_value (found_of matches.now) name.now ≡ Some text) }
{
    match matches.get_str(name) {
        Some(text) => Name::new(alloc, text.as_bytes()),
        None => unreachable!(),
    }
}

/// What a run is given.
fn setup_of(alloc: Global, matches: &ArgMatches<'_>) -> Result<Setup, AllocError>
    requires { HasSetup (found_of matches.now) }
    ensures { IfOk result (FoundSetup (found_of matches.now)) }
{
    let Some(fuel) = fuel_of(matches.get_str("fuel")) else {
        unreachable!()
    };
    Ok(Setup {
        program: word_of(alloc, matches, "program")?,
        folders: parts_in(alloc, matches.get_str("lib"), ':')?,
        preload: parts_in(alloc, matches.get_str("preload"), ':')?,
        bind_now: matches.get_flag("now"),
        harts: parts_in(alloc, matches.get_str("harts"), ',')?,
        fuel,
    })
}

fn bind_of(alloc: Global, matches: &ArgMatches<'_>) -> Result<Bind, AllocError>
    requires { HasBind (found_of matches.now) }
    ensures { IfOk result (FoundBind (found_of matches.now)) }
{
    Ok(Bind {
        folders: parts_in(alloc, matches.get_str("lib"), ':')?,
        preload: parts_in(alloc, matches.get_str("preload"), ':')?,
        now: matches.get_flag("now"),
        program: word_of(alloc, matches, "program")?,
    })
}

fn turns_of(alloc: Global, matches: &ArgMatches<'_>) -> Result<Turns, AllocError>
    requires { HasTurns (found_of matches.now) }
    ensures { IfOk result (FoundTurns (found_of matches.now)) }
{
    Ok(Turns {
        setup: setup_of(alloc, matches)?,
        schedule: word_of(alloc, matches, "schedule")?,
    })
}

fn run_of(alloc: Global, matches: &ArgMatches<'_>) -> Result<Run, AllocError>
    requires { HasRun (found_of matches.now) }
    ensures { IfOk result (FoundRun (found_of matches.now)) }
{
    Ok(Run {
        setup: setup_of(alloc, matches)?,
        trace: matches.get_flag("trace"),
    })
}

fn check_of(alloc: Global, matches: &ArgMatches<'_>) -> Result<Check, AllocError>
    requires { IsSome (first_value (found_of matches.now) (codes "path")) }
    ensures { IfOk result (FoundCheck (found_of matches.now)) }
{
    Ok(Check {
        folders: parts_in(alloc, matches.get_str("lib"), ':')?,
        trace: word_of(alloc, matches, "path")?,
    })
}

fn generated_by(matches: &ArgMatches<'_>) -> u32
    requires { IsSomeNumber (first_value (found_of matches.now) (codes "number")) }
    ensures { FoundNumber (found_of matches.now) result }
{
    let Some(text) = matches.get_str("number") else {
        unreachable!()
    };
    let Some(number) = number_of(text) else {
        unreachable!()
    };
    number
}

/// The command of a verb, with the values that are found.
pub(crate) fn command_of(
    alloc: Global,
    verb: Verb,
    matches: &ArgMatches<'_>,
) -> Result<Command, AllocError>
    requires { HasCommand verb (found_of matches.now) }
    ensures verb { IfOk result (λ command. verb_for command ≡ verb) }
    ensures found { IfOk result (FoundCommand (found_of matches.now)) }
{
    Ok(match verb {
        Verb::Bind => Command::Bind(bind_of(alloc, matches)?),
        Verb::Turns => Command::Turns(turns_of(alloc, matches)?),
        Verb::Run => Command::Run(run_of(alloc, matches)?),
        Verb::Assemble => Command::Assemble(word_of(alloc, matches, "path")?),
        Verb::Dump => Command::Dump(word_of(alloc, matches, "path")?),
        Verb::Check => Command::Check(check_of(alloc, matches)?),
        Verb::Generate => Command::Generate(generated_by(matches)),
    })
}
