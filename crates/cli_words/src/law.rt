//! What holds of words.

ghost use Rattle.cli_words.specs.Options.{OneSaying};
ghost use Rattle.cli_words.specs.Reads.{OneCommand};
ghost use Rattle.cli_words.specs.Worked.{Behind, Ended, Generated, IsNone, Joined, Plain, Scheduled, dashed, empty_part};
ghost use Rattle.cli_words.specs.Worked.{help_option, help_word, leading_zero, no_fuel, no_program, no_words, twice};

/// Words say one list of options and other words, if any.
pub fn words_say_once()
    ensures { OneSaying }
{}

/// Words are one command, if any, with one value of each option.
pub fn words_are_one_command()
    ensures { OneCommand }
{}

/// Worked command lines: options and words are mixed, a value is joined to its option or follows it, and
/// two dashes end the options. What schedules may say of so many harts isn't asked here.
pub fn words_are_commands()
    ensures plain { Plain }
    ensures joined { Joined }
    ensures behind { Behind }
    ensures ended { Ended }
    ensures generated { Generated }
    ensures scheduled { Scheduled }
{}

/// And words that are none: an option that no command has or that stands twice, a value with a dash, a
/// folder without a name, no turns, a zero before a number, no program, no words, another word.
pub fn words_are_none()
    ensures no_words { IsNone no_words }
    ensures no_program { IsNone no_program }
    ensures help { IsNone help_option }
    ensures help_word { IsNone help_word }
    ensures dashed { IsNone dashed }
    ensures twice { IsNone twice }
    ensures empty { IsNone empty_part }
    ensures no_fuel { IsNone no_fuel }
    ensures leading_zero { IsNone leading_zero }
{}
