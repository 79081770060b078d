//! The laws.

ghost use Rattle.std.specs.Prelude.{List, ℕ};
ghost use Rattle.asm_statement.specs.declared.line.Line.{Line};
ghost use Rattle.asm_layout.specs.Contents.{contents_of};
ghost use Rattle.asm_grammar.specs.Grammar.{SaysSource};
ghost use Rattle.asm_accepted.specs.ElfHashed.Hashes.{CountsSymbols, HashesFit};

use asm_laws::sources_are_short;

/// The numbers of the hash tables of a source's object fit their words, and the GNU table ends with the chain of its greatest bucket.
pub fn hash_tables_fit()
    ensures { (source : List ℕ) (lines : List Line) → SaysSource source lines → HashesFit (contents_of lines) }
{
    sources_are_short();
}

/// They tell how many symbols the object has, and its relocations and slots name some of those.
pub fn hash_tables_count_symbols()
    ensures { (source : List ℕ) (lines : List Line) → SaysSource source lines → CountsSymbols (contents_of lines) }
{
    sources_are_short();
}
