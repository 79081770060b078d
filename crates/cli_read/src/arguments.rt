//! The arguments of a form, as the kit's reader of command lines is told of them.

ghost use Rattle.std.specs.Prelude.{◌≡◌, IfOk, false, fold, map};
ghost use Rattle.clap.specs.Simple.{app_of, new_rule, with_rule};
ghost use Rattle.clap.specs.Walk.{rule_of};
ghost use Rattle.cli_read.specs.ClapWords.Forms.{action_for, app_of as app_of_form, id_of, names_of, option_rule, options_of};
ghost use Rattle.cli_read.specs.Matched.{program_name};

use crate::clap_words::Form;
use clap::{Arg, ArgAction, Command};
use cli_words::Switch;
use std::alloc::{AllocError, Global};

/// The options that a form has.
pub(crate) fn options_of(form: Form) -> &'static [Switch]
    ensures { result.now ≡ options_of form }
{
    match form {
        Form::Bind => &[Switch::Lib, Switch::Preload, Switch::Now],
        Form::Turns => &[
            Switch::Lib,
            Switch::Preload,
            Switch::Harts,
            Switch::Fuel,
            Switch::Now,
        ],
        Form::Run => &[
            Switch::Lib,
            Switch::Preload,
            Switch::Harts,
            Switch::Fuel,
            Switch::Now,
            Switch::Trace,
        ],
        Form::Check => &[Switch::Lib],
        Form::Path | Form::Number => &[],
    }
}

/// What a form's other words are called.
pub(crate) fn names_of(form: Form) -> &'static [&'static str]
    ensures { map (λ name. name.now) result.now ≡ names_of form }
{
    match form {
        Form::Bind | Form::Run => &["program"],
        Form::Turns => &["schedule", "program"],
        Form::Check | Form::Path => &["path"],
        Form::Number => &["number"],
    }
}

/// An option's name without its dashes.
fn id_of(switch: Switch) -> &'static str
    ensures { result.now ≡ id_of switch }
{
    match switch {
        Switch::Lib => "lib",
        Switch::Preload => "preload",
        Switch::Harts => "harts",
        Switch::Fuel => "fuel",
        Switch::Now => "now",
        Switch::Trace => "trace",
    }
}

/// Whether an option takes one value, or is a flag.
fn action_for(switch: Switch) -> ArgAction
    ensures { result ≡ action_for switch }
{
    match switch {
        Switch::Lib | Switch::Preload | Switch::Harts | Switch::Fuel => ArgAction::Set,
        Switch::Now | Switch::Trace => ArgAction::SetTrue,
    }
}

/// An option.
fn option_argument<'a>(alloc: Global, switch: Switch) -> Arg<'a>
    ensures rule { rule_of result ≡ option_rule switch }
    ensures own { result.global ≡ false }
{
    let id: &'a str = id_of(switch);
    Arg::new(alloc, id).long(id).action(action_for(switch))
}

/// Another word.
fn word_argument<'a>(alloc: Global, name: &'a str) -> Arg<'a>
    ensures rule { rule_of result ≡ new_rule name.entry.now }
    ensures own { result.global ≡ false }
{
    Arg::new(alloc, name)
}

/// The command with these options, too.
fn with_options<'a>(
    alloc: Global,
    command: Command<'a>,
    options: &[Switch],
) -> Result<Command<'a>, AllocError>
    ensures { IfOk result (λ c. app_of c ≡ fold with_rule (app_of command.entry) (map option_rule options.now)) }
{
    let mut command = command;
    for switch in options {
        command = command.arg(option_argument(alloc, *switch))?;
    }
    Ok(command)
}

/// The command with these other words, too.
fn with_words<'a>(
    alloc: Global,
    command: Command<'a>,
    names: &[&'static str],
) -> Result<Command<'a>, AllocError>
    ensures { IfOk result (λ c. app_of c ≡ fold with_rule (app_of command.entry) (map (λ name. new_rule name.now) names.now)) }
{
    let mut command = command;
    for name in names {
        command = command.arg(word_argument(alloc, name))?;
    }
    Ok(command)
}

/// What stands behind the word of a command of this form.
pub(crate) fn arguments_of<'a>(alloc: Global, form: Form) -> Result<Command<'a>, AllocError>
    ensures { IfOk result (λ c. app_of c ≡ app_of_form program_name form) }
{
    let command = Command::new(alloc, "ldso").disable_help_flag(true);
    let command = with_options(alloc, command, options_of(form))?;
    with_words(alloc, command, names_of(form))
}
