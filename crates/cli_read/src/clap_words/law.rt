//! What holds of words that are a command's.

ghost use Rattle.cli_read.specs.ClapWords.Taken.{AreTaken};

/// Words that say each option once, and as many other words as the form has, are taken, and the matches
/// have what they say.
pub fn words_are_taken()
    ensures { AreTaken }
{}
