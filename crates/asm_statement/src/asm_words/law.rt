//! What holds of the tables.

ghost use Rattle.std.specs.Prelude.{◌≡◌, true};
ghost use Rattle.asm_statement.specs.AsmWords.Table.{are_distinct};
ghost use Rattle.asm_statement.specs.AsmWords.Registers.{register_rows};
ghost use Rattle.asm_statement.specs.AsmWords.DirectiveWords.{directive_word_rows};
ghost use Rattle.asm_statement.specs.AsmWords.Mnemonics.{word_form_rows, atomic_part_rows, access_rows};
ghost use Rattle.asm_statement.specs.AsmWords.Kinds.{fence_set_rows, kind_rows, hash_rows};

/// No word stands twice in a table, so that the first row of a word is its only one.
pub fn each_word_once()
    ensures registers { are_distinct register_rows ≡ true }
    ensures directives { are_distinct directive_word_rows ≡ true }
    ensures mnemonics { are_distinct word_form_rows ≡ true }
    ensures atomics { are_distinct atomic_part_rows ≡ true }
    ensures accesses { are_distinct access_rows ≡ true }
    ensures fence_sets { are_distinct fence_set_rows ≡ true }
    ensures kinds { are_distinct kind_rows ≡ true }
    ensures hashes { are_distinct hash_rows ≡ true }
{}
