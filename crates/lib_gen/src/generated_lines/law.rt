//! The law.

ghost use Rattle.std.specs.Prelude.{◌<◌, ℕ};
ghost use Rattle.asm_grammar.specs.Grammar.{SaysSource};
ghost use Rattle.lib_gen.specs.GeneratedLines.Lines.{library_lines, program_lines};
ghost use Rattle.lib_gen.specs.GeneratedSources.Shape.{function_count, library_count};
ghost use Rattle.lib_gen.specs.GeneratedSources.Sources.{library_source, program_source};

/// The source of each library that a number makes, and that of the program, says its lines.
pub fn sources_say()
    ensures library { (number i : ℕ) → i < library_count number
        → SaysSource (library_source (library_count number) (function_count number) i) (library_lines (library_count number) (function_count number) i) }
    ensures program { (number : ℕ) → SaysSource (program_source number) (program_lines number) }
{}
