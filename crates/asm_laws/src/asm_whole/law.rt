//! The laws.

ghost use Rattle.std.specs.Prelude.{List, ℕ};
ghost use Rattle.asm_laws.specs.ElfWritten.Standing.{AlignsInPages};
ghost use Rattle.asm_statement.specs.declared.line.Line.{Line};
ghost use Rattle.asm_grammar.specs.Grammar.{SaysSource};
ghost use Rattle.asm_laws.specs.Short.{AreOfSource};
ghost use Rattle.asm_layout.specs.Contents.{contents_of};
ghost use Rattle.asm_laws.specs.AsmWhole.Aligned.{AreAligned};
ghost use Rattle.asm_laws.specs.AsmWhole.Named.{AreNames};

/// What each part of a source's object is aligned to divides a page.
pub fn alignments_divide_pages()
    ensures { (lines : List Line) → AreAligned lines → AlignsInPages (contents_of lines) }
{}

/// The lines of a source are those that the laws of sizes, alignments and names are about.
pub fn sources_are_short()
    ensures { (source : List ℕ) (lines : List Line) → SaysSource source lines → AreOfSource lines × AreAligned lines × AreNames lines }
{}
