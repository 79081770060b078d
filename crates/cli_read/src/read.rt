//! Commands.

ghost use Rattle.std.specs.Prelude.{◌≡◌, IfErr, IfOk};
ghost use Rattle.cli_words.specs.Reads.{Reads};
ghost use Rattle.cli_words.specs.declared.command.Command.{Command};
ghost use Rattle.cli_read.specs.declared.fault.WordsFault.TheVariants.{Memory, Usage};
ghost use Rattle.cli_read.specs.SaidWords.Words.{texts};

use crate::fault::WordsFault;
use crate::found::command_of;
use crate::taken::taken;
use crate::verb::verb_of;
use cli_words::Command;
use std::alloc::Global;

/// The command that words are, with its values.
///
/// # Errors
///
/// `Usage` where the words are no command. `Memory` where they are one, and there was no memory to read it.
pub fn read_command(alloc: Global, words: &[String]) -> Result<Command, WordsFault>
    ensures is { IfOk result (Reads (texts words.now)) }
    ensures usage { IfErr result (λ e. e ≡ Usage → (command : Command) → Reads (texts words.now) command → ⊥) }
    ensures memory { IfErr result (λ e. e ≡ Memory → (command : Command) × Reads (texts words.now) command) }
{
    let Some(word) = words.first() else {
        return Err(WordsFault::Usage);
    };
    let Some(verb) = verb_of(word) else {
        return Err(WordsFault::Usage);
    };
    let matches = taken(alloc, verb.form(), words)?;
    Ok(command_of(alloc, verb, &matches)?)
}
